//! What every legal journal keeps: the contracts are the laws. "After every entry" is said as: of each front of it.
ghost use Rattle.std.specs.Prelude.{ℕ, true, false, List, [], ◌∷◌, ◌++◌, ◌≡◌, ◌≢◌, ◌≤◌, ◌<◌, ◌+◌, ◌^◌, ◌↔◌, length};
ghost use Rattle.std.specs.List.{sum_by, count_by};
ghost use Rattle.hpx_value.specs.Ids.{Id};
ghost use Rattle.hpx_value.specs.Hands.{Slot};
ghost use Rattle.hpx_journal.specs.Slots.{claims_in};
ghost use Rattle.hpx_journal.specs.Entries.{Name, Done, Freed, In, Entry, Rules, Frame, same_frame};
ghost use Rattle.hpx_journal.specs.Local.{Local, is_standing, boot, recorded};
ghost use Rattle.hpx_journal.specs.Rows.{IsDead};
ghost use Rattle.hpx_journal.specs.Names.{IsBacked};
ghost use Rattle.hpx_journal.specs.Foreign.{present, IsUndrawn, kept, NodeKeeps, IsForeign};
ghost use Rattle.hpx_journal.specs.Roots.{roots};
ghost use Rattle.hpx_journal.specs.Whole.{IsLegal, IsJoin, IsClean, IsCarried, IsQuiet, IsQuietAt, Space, part, replayed, run_local, credit_sum, recorded_in, IsDeadIn, names_in};
ghost use Rattle.hpx_journal.specs.Laws.{fired_here, travelling_in, FreesTheDead, KeepsActLaws, IsFormed, RefusesForCause, count_events, is_freed, is_failed, hands_refusal, is_refused_count, HasGrammar, IsBornIn, IsOnRoad, IsLegalLocal, AreAt, SameBag, TargetsStand, Commits, Fails, entry_at, held_in, owed_in, asking_in, asked_in, given_in, begun, fires, dones, fires_at, dones_at, freeds, ins, outs, road_run};
ghost use Rattle.hpx_journal.specs.Moving.{MoveCounts, IsCounted, IsOnTheRoad, IsTracked, is_born_of, is_left_of, is_landed_of};
ghost use Rattle.hpx_journal.specs.Pool.{Pool, IsBlind, Shows, NoneFails, IsPlainRun, boot_pool, prints_of};
ghost use Rattle.hpx_journal.specs.Sessions.{IsSettled, BeginsWith, IsSession, IsPlainSession, IsPlainBrokenOff, entries_of, shown};

/// Each front of a legal journal is legal.
pub fn front_law()
    ensures { (r : Rules) (es later : List Entry) → IsLegal r (es ++ later) → IsLegal r es }
{}

/// Node journals put together, each backed at its own locality, are one legal journal without a foreign arrival, in which
/// each locality stays backed.
pub fn join_law()
    ensures legal { (r : Rules) (es : List Entry) → HasGrammar r → IsJoin r es → IsLegal r es }
    ensures clean { (r : Rules) (es : List Entry) (k : ℕ) → HasGrammar r → IsLegal r es → k < r.localities →
        IsClean r (boot (roots r.localities k) k) (part k es) }
    ensures backed { (r : Rules) (es later : List Entry) (k : ℕ) → HasGrammar r → IsJoin r (es ++ later) → k < r.localities →
        IsBacked ((replayed r es).places k) }
{}

/// The credits of each object are what is recorded of it, and it is dead exactly where it was born and has no credit.
pub fn ledger_law()
    ensures sums { (r : Rules) (es later : List Entry) (o : Id) → IsLegal r (es ++ later) →
        credit_sum r o (replayed r es) ≡ recorded_in o (replayed r es) }
    ensures dies { (r : Rules) (es later : List Entry) (o : Id) → IsLegal r (es ++ later) →
        IsDeadIn o (replayed r es) ↔ (IsBornIn o (replayed r es) × (credit_sum r o (replayed r es) ≡ 0)) }
{}

/// Each name of a managed object has a credit of its own, so once it is dead nothing ever names it. It is freed after
/// that, once, and is nowhere then.
pub fn life_law()
    ensures named { (r : Rules) (es later : List Entry) (o : Id) → HasGrammar r → IsJoin r (es ++ later) → 16 ≤ o.kind →
        names_in r o (replayed r es) + given_in r o (replayed r es) ≤ held_in r o (replayed r es) + asked_in r o (replayed r es) }
    ensures asked { (r : Rules) (es later : List Entry) (o : Id) → HasGrammar r → IsJoin r (es ++ later) → 16 ≤ o.kind →
        asked_in r o (replayed r es) ≤ owed_in r o (replayed r es) + asking_in r o (replayed r es) + given_in r o (replayed r es) }
    ensures dead { (r : Rules) (es later : List Entry) (o : Id) → HasGrammar r → IsJoin r (es ++ later) → 16 ≤ o.kind →
        IsDeadIn o (replayed r es) → names_in r o (replayed r (es ++ later)) ≡ 0 }
    ensures stays_dead { (r : Rules) (es later : List Entry) (o : Id) → IsLegal r (es ++ later) → IsDeadIn o (replayed r es) →
        IsDeadIn o (replayed r (es ++ later)) }
    ensures freed { (r : Rules) (es later : List Entry) (k : ℕ) (o : Id) → IsLegal r (es ++ entry_at k (Freed o) ∷ later) →
        IsDeadIn o (replayed r es) }
    ensures freed_once { (r : Rules) (es : List Entry) (o : Id) → IsLegal r es → freeds o es ≤ 1 }
    ensures gone { (r : Rules) (es : List Entry) (o : Id) (k : ℕ) → IsLegal r es → k < r.localities → 1 ≤ freeds o es →
        kept o ((replayed r es).places k) ≡ 0 }
    ensures off_the_road { (r : Rules) (es : List Entry) (o : Id) → IsLegal r es → 1 ≤ freeds o es → travelling_in r o (replayed r es) ≡ 0 }
{}

/// Each action is fed or sent at most once, fired at most once and done at most once, the last two at one locality. It is
/// fired from the one to the other, and its target stands there then. What a Done leaves is the outcome of its action, or
/// the failure.
pub fn once_law()
    ensures begun_once { (r : Rules) (es : List Entry) (a : Name) → IsLegal r es → begun a es ≤ 1 }
    ensures fired_once { (r : Rules) (es : List Entry) (a : Name) → IsLegal r es → fires a es ≤ 1 }
    ensures done_once { (r : Rules) (es : List Entry) (a : Name) → IsLegal r es → dones a es ≤ 1 }
    ensures done_where { (r : Rules) (es : List Entry) (k : ℕ) (a : Name) → IsLegal r es → dones_at k a es ≤ fires_at k a es }
    ensures fired_begun { (r : Rules) (es : List Entry) (a : Name) → IsLegal r es → fires a es ≤ begun a es }
    ensures stands { (r : Rules) (es : List Entry) (k : ℕ) → IsLegal r es → TargetsStand ((replayed r es).places k) }
    ensures runs { (r : Rules) (es : List Entry) (k : ℕ) (a : Name) → IsLegal r es →
        fired_here a ((replayed r es).places k) + dones_at k a es ≡ fires_at k a es }
    ensures committed { (r : Rules) (es later : List Entry) (k : ℕ) (a : Name) → IsLegal r (es ++ entry_at k (Done a false) ∷ later) →
        Commits r a ((replayed r es).places k) ((replayed r (es ++ entry_at k (Done a false) ∷ [])).places k) }
    ensures failed { (r : Rules) (es later : List Entry) (k : ℕ) (a : Name) → IsLegal r (es ++ entry_at k (Done a true) ∷ later) →
        Fails a ((replayed r es).places k) ((replayed r (es ++ entry_at k (Done a true) ∷ [])).places k) }
{}

/// What a journal leaves at one locality is what its entries there leave, and what it leaves on the road was sent and not
/// accepted: no foreign arrival where it goes. A journal that is fed by counts is carried by the road.
pub fn part_law()
    ensures part { (r : Rules) (es : List Entry) (k : ℕ) →
        (replayed r es).places k ≡ run_local r (boot (roots r.localities k) k) (part k es) }
    ensures allowed { (r : Rules) (es : List Entry) (k : ℕ) → IsLegal r es →
        IsLegalLocal r (boot (roots r.localities k) k) (part k es) }
    ensures road { (r : Rules) (es : List Entry) → (replayed r es).road ≡ road_run [] es }
    ensures frames { (r : Rules) (es : List Entry) (f : Frame) → IsLegal r es →
        count_by (same_frame f) (road_run [] es) + count_by (same_frame f) (ins es) ≡ count_by (λ x. same_frame f x.1) (outs es) }
    ensures on_road { (r : Rules) (es : List Entry) (flight : List Frame) (f : Frame) → SameBag (road_run [] es) flight →
        1 ≤ count_by (same_frame f) flight → IsOnRoad f (replayed r es) }
    ensures native { (r : Rules) (es : List Entry) (k : ℕ) (bytes : List ℕ) → HasGrammar r → IsLegal r es → k < r.localities →
        IsOnRoad (k, bytes) (replayed r es) → IsForeign r ((replayed r es).places k) (In bytes) → ⊥ }
    ensures carried { (r : Rules) (es : List Entry) →
        ((front : List Entry) (e : Entry) (later : List Entry) → es ≡ front ++ e ∷ later → e.at < r.localities) →
        ((front later : List Entry) → es ≡ front ++ later → (f : Frame) →
        count_by (same_frame f) (ins front) ≤ count_by (λ x. same_frame f x.1) (outs front)) →
        IsCarried r [] es }
{}

/// A locality's part without a foreign arrival: it is legal and backed; each action is there at most once, and each managed
/// object, and not before their numbers are drawn; targets of fired actions stand; what is dead has no count.
pub fn single_law()
    ensures legal { (r : Rules) (s : Local) (es : List Entry) → NodeKeeps r s es → IsClean r s es → IsLegalLocal r s es }
    ensures backed { (r : Rules) (k : ℕ) (es : List Entry) → NodeKeeps r (boot (roots r.localities k) k) es →
        IsClean r (boot (roots r.localities k) k) es → IsBacked (run_local r (boot (roots r.localities k) k) es) }
    ensures act { (r : Rules) (k : ℕ) (es : List Entry) (a : Name) → IsLegalLocal r (boot (roots r.localities k) k) es →
        IsClean r (boot (roots r.localities k) k) es → present a (run_local r (boot (roots r.localities k) k) es) ≤ 1 }
    ensures drawn_act { (r : Rules) (k : ℕ) (es : List Entry) (a : Name) → IsLegalLocal r (boot (roots r.localities k) k) es →
        IsClean r (boot (roots r.localities k) k) es → a.origin ≡ k →
        IsUndrawn (run_local r (boot (roots r.localities k) k) es).serial a.serial →
        present a (run_local r (boot (roots r.localities k) k) es) ≡ 0 }
    ensures object { (r : Rules) (k : ℕ) (es : List Entry) (o : Id) → IsLegalLocal r (boot (roots r.localities k) k) es →
        IsClean r (boot (roots r.localities k) k) es → 16 ≤ o.kind → kept o (run_local r (boot (roots r.localities k) k) es) ≤ 1 }
    ensures drawn_object { (r : Rules) (k : ℕ) (es : List Entry) (o : Id) → IsLegalLocal r (boot (roots r.localities k) k) es →
        IsClean r (boot (roots r.localities k) k) es → 16 ≤ o.kind → o.home ≡ k →
        IsUndrawn (run_local r (boot (roots r.localities k) k) es).number o.number →
        kept o (run_local r (boot (roots r.localities k) k) es) ≡ 0 }
    ensures stands { (r : Rules) (k : ℕ) (es : List Entry) → IsLegalLocal r (boot (roots r.localities k) k) es →
        IsClean r (boot (roots r.localities k) k) es → TargetsStand (run_local r (boot (roots r.localities k) k) es) }
    ensures dead { (r : Rules) (k : ℕ) (es : List Entry) (o : Id) → IsLegalLocal r (boot (roots r.localities k) k) es →
        IsClean r (boot (roots r.localities k) k) es → IsDead o (run_local r (boot (roots r.localities k) k) es) →
        recorded o (run_local r (boot (roots r.localities k) k) es) ≡ 0 }
{}

/// How parts and joins grow by entries of one locality.
pub fn growth_law()
    ensures part { (k : ℕ) (es later : List Entry) → part k (es ++ later) ≡ part k es ++ part k later }
    ensures own { (k : ℕ) (es : List Entry) → AreAt k es → part k es ≡ es }
    ensures other { (j k : ℕ) (es : List Entry) → AreAt k es → k ≢ j → part j es ≡ [] }
    ensures keeps { (r : Rules) (s : Local) (es later : List Entry) → NodeKeeps r s es →
        (IsClean r s es → NodeKeeps r (run_local r s es) later) → NodeKeeps r s (es ++ later) }
    ensures join { (r : Rules) (es later : List Entry) (k : ℕ) → IsJoin r es → AreAt k later →
        (k < r.localities → NodeKeeps r (boot (roots r.localities k) k) (part k es ++ later)) →
        IsCarried r (road_run [] es) later → IsJoin r (es ++ later) }
    ensures front { (r : Rules) (es later : List Entry) → IsJoin r (es ++ later) → IsJoin r es }
{}

/// On the road are as many frames as were sent and not accepted. Where there are none and each locality frees the dead, each
/// dead object was freed; where besides each locality is quiet, so is the journal, and each action was fired and done.
pub fn quiet_law()
    ensures road_length { (r : Rules) (es : List Entry) → IsLegal r es →
        length (replayed r es).road + length (ins es) ≡ length (outs es) }
    ensures road { (r : Rules) (es : List Entry) → IsLegal r es → length (ins es) ≡ length (outs es) → (replayed r es).road ≡ [] }
    ensures freed { (r : Rules) (es : List Entry) (o : Id) → IsLegal r es → (replayed r es).road ≡ [] →
        ((k : ℕ) → k < r.localities → FreesTheDead r k (part k es)) → IsDeadIn o (replayed r es) → 1 ≤ freeds o es }
    ensures quiet { (r : Rules) (es : List Entry) → IsLegal r es →
        ((k : ℕ) → k < r.localities → IsQuietAt ((replayed r es).places k)) → length (ins es) ≡ length (outs es) →
        ((o : Id) → IsDeadIn o (replayed r es) → 1 ≤ freeds o es) → IsQuiet r (replayed r es) }
    ensures all_fired { (r : Rules) (es : List Entry) (a : Name) → IsLegal r es → IsQuiet r (replayed r es) → fires a es ≡ begun a es }
    ensures all_done { (r : Rules) (es : List Entry) (a : Name) → IsLegal r es → IsQuiet r (replayed r es) → dones a es ≡ begun a es }
{}

/// At each locality no more actions fail than ids come back there with no more credit. Where each locality hands over and
/// sends such an id only for one that came or that its own record refused, no more actions fail than Counts are refused.
/// No Count is, in a journal within its limits, where the greatest count is 2^53 or more.
pub fn failure_law()
    ensures handed { (r : Rules) (es : List Entry) (k : ℕ) → IsLegal r es →
        count_events is_failed (part k es) ≤ count_events hands_refusal (part k es) }
    ensures refused { (r : Rules) (es : List Entry) → IsLegal r es →
        ((k : ℕ) → k < r.localities → RefusesForCause r (part k es)) →
        count_events is_failed es ≤ count_events is_refused_count es }
    ensures ample { (r : Rules) (es : List Entry) → IsLegal r es → r.credit_log ≤ 31 → length es ≤ 2097152 → 2 ^ 53 ≤ r.credit_limit →
        count_events is_refused_count es ≡ 0 }
{}

/// By the laws of actions, states and actions are well formed, and each slot of an object is claimed at most once: by one
/// continuation that names it, or by one answer to it that is due or was ever sent.
pub fn slots_law()
    ensures formed { (r : Rules) (es : List Entry) (k : ℕ) → HasGrammar r → KeepsActLaws r → IsLegal r es →
        IsFormed ((replayed r es).places k) }
    ensures slots { (r : Rules) (es later : List Entry) (x : Slot) → HasGrammar r → KeepsActLaws r → IsLegal r (es ++ later) →
        claims_in r x (replayed r es) ≤ 1 }
{}

/// A legal journal without a failed Done is a run of the plain pool: an entry is a line, one step of an action, a pending
/// MOVE that carries its target, or nothing. It is one from boot on, and from any moment on.
pub fn reduction_law()
    ensures boot { (r : Rules) → Shows r (replayed r []) (boot_pool r) [] }
    ensures plain { (r : Rules) (es later : List Entry) (p : Pool) (out : List (List ℕ)) → HasGrammar r → KeepsActLaws r → IsBlind r →
        IsLegal r (es ++ later) → NoneFails (es ++ later) → Shows r (replayed r es) p out → IsPlainRun r (replayed r es) p out later }
{}

/// Where no action fails, what a session prints, block after block, is what the plain pool prints, line after line; where
/// a line is broken off, what was printed begins what the pool prints. A session is a legal journal, and grows by a block;
/// what is quiet is settled.
pub fn session_law()
    ensures boot { (r : Rules) (lines : List (List ℕ)) (blocks : List (List Entry)) → HasGrammar r → KeepsActLaws r → IsBlind r →
        NoneFails (entries_of blocks) → IsSession r [] lines blocks → IsPlainSession r (boot_pool r) lines (shown blocks) }
    ensures broken_off { (r : Rules) (lines : List (List ℕ)) (blocks : List (List Entry)) (line : List ℕ) (es : List Entry) →
        HasGrammar r → KeepsActLaws r → IsBlind r → IsSession r [] lines blocks → BeginsWith line es →
        IsLegal r (entries_of blocks ++ es) → NoneFails (entries_of blocks ++ es) →
        IsPlainBrokenOff r (boot_pool r) lines (shown blocks) line (prints_of es) }
    ensures grows { (r : Rules) (lines : List (List ℕ)) (blocks : List (List Entry)) (line : List ℕ) (es : List Entry) →
        IsSession r [] lines blocks → IsLegal r (entries_of blocks ++ es) → BeginsWith line es →
        IsSettled r (replayed r (entries_of blocks ++ es)) → IsSession r [] (lines ++ line ∷ []) (blocks ++ es ∷ []) }
    ensures entries { (blocks : List (List Entry)) (es : List Entry) → entries_of (blocks ++ es ∷ []) ≡ entries_of blocks ++ es }
    ensures texts { (blocks : List (List Entry)) (es : List Entry) → shown (blocks ++ es ∷ []) ≡ shown blocks ++ prints_of es ∷ [] }
    ensures legal { (r : Rules) (lines : List (List ℕ)) (blocks : List (List Entry)) → IsSession r [] lines blocks →
        IsLegal r (entries_of blocks) }
    ensures quiet { (r : Rules) (w : Space) → IsQuiet r w → IsSettled r w }
{}

/// What localities count of one object's moves, put together: its home has it move to a locality exactly where one thing is
/// under way for that, and it stands where the home says, or where something of its move is still under way.
pub fn tracks_law()
    ensures { (n h : ℕ) (m : MoveCounts) → IsCounted n h m → IsOnTheRoad n h m → IsTracked n m }
{}

/// What a journal has of moves: on the road is what was sent and not accepted, whatever is counted of frames, and an object
/// stands at a locality as often as it was born and landed there, less how often it left and was freed.
pub fn moving_law()
    ensures road { (g : Frame → ℕ) (r : Rules) (es : List Entry) → IsLegal r es →
        sum_by g (replayed r es).road + sum_by g (ins es) ≡ sum_by (λ x. g x.1) (outs es) }
    ensures stands { (r : Rules) (s : Local) (es : List Entry) (o : Id) → IsLegalLocal r s es →
        count_by (is_standing o) (run_local r s es).objects + count_events (is_freed o) es + count_events (is_left_of o) es
        ≡ count_by (is_standing o) s.objects + count_events (is_born_of o) es + count_events (is_landed_of o) es }
{}
