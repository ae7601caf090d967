//! What a console of several processes prints: the contracts are the laws.
ghost use Rattle.std.specs.Prelude.{ℕ, List, [], ◌∷◌, ◌≡◌, ◌≤◌, ◌<◌, Option, length};
ghost use Rattle.std.specs.List.{AllByRecursion, concat};
ghost use Rattle.hpx_journal.specs.Entries.{Rules};
ghost use Rattle.hpx_journal.specs.Laws.{HasGrammar};
ghost use Rattle.hpx_journal.specs.Pool.{NoneFails, prints_of};
ghost use Rattle.hpx_journal.specs.Whole.{IsJoin, IsQuiet, part, replayed, run_local};
ghost use Rattle.hpx_journal.specs.declared.entry.Entry.{Entry};
ghost use Rattle.app_compute.specs.FibLaw.{IsQuestion, fed_line, fib_text};
ghost use Rattle.app_compute.specs.Judging.{IsJudged};
ghost use Rattle.app_compute.specs.Ring.{stencil_texts};
ghost use Rattle.app_compute.specs.StencilLaw.{IsAsked, ring_fed};
ghost use Rattle.app_console.specs.Judging.{Acting, judging};
ghost use Rattle.app_console.specs.Lines.{first_of, opening, others_of};
ghost use Rattle.app_console.specs.Plain.{opened};
ghost use Rattle.app_console.specs.Text.{lines_text, marked, written};
ghost use Rattle.app_console.specs.declared.table.Console.TheVariants.{Accumulator as AccumulatorConsole};
ghost use Rattle.hpx_joined.specs.Ends.{HasEnded, lines_in};
ghost use Rattle.hpx_patient.specs.Lines.{LinesStay};
ghost use Rattle.hpx_patient.specs.Patient.{IsPatientPart, IsReady};
ghost use Rattle.hpx_journal.specs.Data.{Parcel};
ghost use Rattle.hpx_journal.specs.Local.{boot};
ghost use Rattle.hpx_journal.specs.Roots.{roots};
ghost use Rattle.hpx_journal.specs.Sessions.{FeedsNothing, shown};

/// Where the last round of the console has ended, nothing is under way anywhere.
pub fn end_law()
    ensures { (r : Rules) (es : List Entry) → HasGrammar r → IsJoin r es → HasEnded r es → IsQuiet r (replayed r es) }
{}

/// What is computed by several processes: where one line was fed, no action fails, and the console's last round has ended, what the journals print is
/// the number or the rows of the ring, for any number of processes and any order of delivery.
pub fn computed_law()
    ensures number { (r : Rules) (es : List Entry) (n t : ℕ) → IsJudged r → IsQuestion n t → IsJoin r es → HasEnded r es → NoneFails es
        → lines_in (part 0 es) ≡ fed_line n t ∷ [] → prints_of es ≡ fib_text n ∷ [] }
    ensures ring { (r : Rules) (es : List Entry) (p q s : ℕ) → IsJudged r → IsAsked p q s → IsJoin r es → HasEnded r es → NoneFails es
        → lines_in (part 0 es) ≡ ring_fed p q s ∷ [] → prints_of es ≡ stencil_texts p s }
{}

/// What the accumulator's console of several processes prints: where its own part is a block for each line, behind each of which the console was ready
/// for the next, no action fails, and no line is sent away, it prints for each line what one plain space says (`said`), and nothing behind the last
/// block where it is ready there, too (`silent`), for any number of processes and any order of delivery.
pub fn session_law()
    ensures said { (acts : Acting) (n log limit : ℕ) (parcel_of : List ℕ → Option Parcel) (es : List Entry) (lines : List (List ℕ)) (blocks : List (List Entry)) (last : List Entry)
        → 1 ≤ n → n ≤ 64 → length lines < 4000000000 → HasGrammar (judging acts n log limit parcel_of) → IsJoin (judging acts n log limit parcel_of) es → NoneFails es
        → LinesStay (judging acts n log limit parcel_of) es → IsPatientPart (judging acts n log limit parcel_of) (part 0 es) (opening ∷ marked 97 lines) blocks last
        → (first_of (shown blocks) ≡ []) × (written lines (others_of (shown blocks)) ≡ lines_text AccumulatorConsole n (opened n) lines) }
    ensures silent { (acts : Acting) (n log limit : ℕ) (parcel_of : List ℕ → Option Parcel) (es : List Entry) (lines : List (List ℕ)) (blocks : List (List Entry)) (last : List Entry)
        → 1 ≤ n → n ≤ 64 → length lines < 4000000000 → HasGrammar (judging acts n log limit parcel_of) → IsJoin (judging acts n log limit parcel_of) es → NoneFails es
        → LinesStay (judging acts n log limit parcel_of) es → IsPatientPart (judging acts n log limit parcel_of) (part 0 es) (opening ∷ marked 97 lines) blocks last → AllByRecursion (λ e. FeedsNothing e.event) last
        → IsReady (run_local (judging acts n log limit parcel_of) (boot (roots n 0) 0) (part 0 es)) → concat (prints_of last) ≡ [] }
{}
