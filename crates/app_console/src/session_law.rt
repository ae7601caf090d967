//! What the consoles' sessions print, and that all actions but those of the plain kind keep the laws: the contracts are the laws.
ghost use Rattle.std.specs.Prelude.{ℕ, List, [], ◌∷◌, ◌++◌, Option, false, ◌≡◌, ◌≢◌, ◌≤◌, ◌<◌, length, map};
ghost use Rattle.std.specs.List.{concat, AllByRecursion};
ghost use Rattle.hpx_value.specs.Shapes.{IsAct, IsState};
ghost use Rattle.hpx_value.specs.Values.{bare_state, bare_act, named, message_of};
ghost use Rattle.hpx_value.specs.Laws.{KeepsLaws};
ghost use Rattle.hpx_journal.specs.Data.{Parcel};
ghost use Rattle.hpx_journal.specs.declared.entry.Entry.{Entry};
ghost use Rattle.hpx_journal.specs.Laws.{HasGrammar};
ghost use Rattle.hpx_journal.specs.Pool.{NoneFails, prints_of};
ghost use Rattle.hpx_journal.specs.Whole.{IsLegal};
ghost use Rattle.hpx_journal.specs.Sessions.{IsSession, BeginsWith, entries_of, shown};
ghost use Rattle.app_console.specs.Console.{prompt};
ghost use Rattle.app_console.specs.Types.{Console, State, Act};
ghost use Rattle.app_console.specs.Lines.{is_long, opening, first_of, others_of, IsFront};
ghost use Rattle.app_console.specs.Session.{act_of};
ghost use Rattle.app_console.specs.Judging.{Acting, judging};
ghost use Rattle.app_console.specs.Plain.{at_boot, opened, texts_of};
ghost use Rattle.app_console.specs.Text.{IsUsers, marked, written, lines_text};

/// Whatever the order in which frames come: where each line of a console that is not too long is fed, and each only once
/// nothing is pending, the console writes what the plain space says, as long as no action fails. Where no line is too long,
/// each prints what it says of that line alone (`each_line`). Where a line is broken off, the console has written the front of
/// its text. So it is from boot on, and where the top call first has its own line fed, for all acts of which the session reads
/// both consoles.
pub fn session_law()
    ensures plain { (acts : Acting) (con : Console) (mark n log limit : ℕ) (parcel_of : List ℕ → Option Parcel) (lines : List (List ℕ))
        (blocks : List (List Entry)) → IsUsers con mark → 1 ≤ n → n ≤ 64 → length lines < 4000000000 →
        HasGrammar (judging acts n log limit parcel_of) → NoneFails (entries_of blocks) →
        IsSession (judging acts n log limit parcel_of) [] (marked mark lines) blocks →
        written lines (shown blocks) ≡ lines_text con n (at_boot n) lines }
    ensures each_line { (acts : Acting) (con : Console) (mark n log limit : ℕ) (parcel_of : List ℕ → Option Parcel) (lines : List (List ℕ))
        (blocks : List (List Entry)) → IsUsers con mark → 1 ≤ n → n ≤ 64 → length lines < 4000000000 →
        AllByRecursion (λ line. is_long line ≡ false) lines → HasGrammar (judging acts n log limit parcel_of) → NoneFails (entries_of blocks) →
        IsSession (judging acts n log limit parcel_of) [] (marked mark lines) blocks →
        map concat (shown blocks) ≡ texts_of con n (at_boot n) lines }
    ensures broken_off { (acts : Acting) (con : Console) (mark n log limit : ℕ) (parcel_of : List ℕ → Option Parcel) (lines : List (List ℕ))
        (blocks : List (List Entry)) (line : List ℕ) (es : List Entry) → IsUsers con mark → 1 ≤ n → n ≤ 64 → length lines < 3999999999 →
        is_long line ≡ false → HasGrammar (judging acts n log limit parcel_of) →
        IsSession (judging acts n log limit parcel_of) [] (marked mark lines) blocks → BeginsWith (mark ∷ line) es →
        IsLegal (judging acts n log limit parcel_of) (entries_of blocks ++ es) → NoneFails (entries_of blocks ++ es) →
        IsFront (written lines (shown blocks) ++ (prompt ++ concat (prints_of es))) (lines_text con n (at_boot n) (lines ++ line ∷ [])) }
    ensures opens { (acts : Acting) (n log limit : ℕ) (parcel_of : List ℕ → Option Parcel) (es : List Entry) → 1 ≤ n → n ≤ 64 →
        HasGrammar (judging acts n log limit parcel_of) → BeginsWith opening es → IsLegal (judging acts n log limit parcel_of) es → NoneFails es →
        concat (prints_of es) ≡ [] }
    ensures opened_whole { (acts : Acting) (con : Console) (mark n log limit : ℕ) (parcel_of : List ℕ → Option Parcel) (lines : List (List ℕ))
        (blocks : List (List Entry)) → IsUsers con mark → 1 ≤ n → n ≤ 64 → length lines < 4000000000 →
        HasGrammar (judging acts n log limit parcel_of) → NoneFails (entries_of blocks) →
        IsSession (judging acts n log limit parcel_of) [] (opening ∷ marked mark lines) blocks →
        (first_of (shown blocks) ≡ []) × (written lines (others_of (shown blocks)) ≡ lines_text con n (opened n) lines) }
    ensures opened_broken_off { (acts : Acting) (con : Console) (mark n log limit : ℕ) (parcel_of : List ℕ → Option Parcel)
        (lines : List (List ℕ)) (blocks : List (List Entry)) (line : List ℕ) (es : List Entry) → IsUsers con mark → 1 ≤ n → n ≤ 64 →
        length lines < 3999999999 → is_long line ≡ false → HasGrammar (judging acts n log limit parcel_of) →
        IsSession (judging acts n log limit parcel_of) [] (opening ∷ marked mark lines) blocks → BeginsWith (mark ∷ line) es →
        IsLegal (judging acts n log limit parcel_of) (entries_of blocks ++ es) → NoneFails (entries_of blocks ++ es) →
        IsFront (written lines (others_of (shown blocks)) ++ (prompt ++ concat (prints_of es))) (lines_text con n (opened n) (lines ++ line ∷ [])) }
{}

/// What an action does keeps the laws of actions, on any kind but the plain one, 7, and looks neither at the action's name nor at the
/// credits of ids.
pub fn acts_law()
    ensures keeps { (n kind here : ℕ) (s : State) (a : Act) → 1 ≤ n → n ≤ 64 → here < n → kind ≢ 7 → IsState s → IsAct a →
        KeepsLaws n kind here s a (act_of n kind here s a) }
    ensures blind { (n kind here : ℕ) (s : State) (a : Act) →
        act_of n kind here s a ≡ act_of n kind here (bare_state s) (named 0 0 (message_of (bare_act a))) }
{}
