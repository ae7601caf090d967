//! What a legal journal over several localities keeps of its console: the contracts are the laws.
ghost use Rattle.std.specs.Prelude.{ℕ, List, ◌++◌, ◌≡◌, ◌≤◌, ◌+◌};
ghost use Rattle.std.specs.List.{AllByRecursion};
ghost use Rattle.hpx_journal.specs.Entries.{Rules};
ghost use Rattle.hpx_journal.specs.Whole.{IsLegal, part, replayed};
ghost use Rattle.hpx_journal.specs.Laws.{HasGrammar, KeepsActLaws};
ghost use Rattle.hpx_journal.specs.Pool.{Pool, Shows, IsBlind, NoneFails, boot_pool, mass, mass_at, prints_of};
ghost use Rattle.hpx_journal.specs.Sessions.{BeginsWith, FeedsNothing, entries_of, shown};
ghost use Rattle.hpx_patient.specs.Data.{Entry};
ghost use Rattle.hpx_patient.specs.Claims.{session_claims, drawn_at, answered_at, awaited_at};
ghost use Rattle.hpx_patient.specs.Lines.{line_count, LinesStay};
ghost use Rattle.hpx_patient.specs.Patient.{IsReady, IsPatientSession, IsPatientPart, AreAside, IsPatientPlainSession, IsPatientPlainBrokenOff};

/// Only locality 0 prints.
pub fn prints_law()
    ensures { (r : Rules) (es : List Entry) → HasGrammar r → KeepsActLaws r → IsLegal r es → prints_of es ≡ prints_of (part 0 es) }
{}

/// The answers that the session has had and the claims on it of all messages that are not done, wherever they are, are no
/// more than the slots that it drew. So where it awaits no answer no message that is not done claims a slot of it.
pub fn answers_law()
    ensures claims { (r : Rules) (es : List Entry) → HasGrammar r → KeepsActLaws r → IsLegal r es →
        answered_at ((replayed r es).places 0) + mass r session_claims (replayed r es) ≤ drawn_at ((replayed r es).places 0) }
    ensures none { (r : Rules) (es : List Entry) → HasGrammar r → KeepsActLaws r → IsLegal r es →
        awaited_at ((replayed r es).places 0) ≡ 0 → mass r session_claims (replayed r es) ≡ 0 }
    ensures pending { (r : Rules) (es : List Entry) (p : Pool) (out : List (List ℕ)) → HasGrammar r → KeepsActLaws r → IsLegal r es →
        Shows r (replayed r es) p out → awaited_at ((replayed r es).places 0) ≡ 0 → AllByRecursion (λ m. session_claims m ≡ 0) p.pending }
{}

/// Where locality 0 sends no line away, all lines that are not done are there.
pub fn lines_law()
    ensures { (r : Rules) (es : List Entry) → HasGrammar r → KeepsActLaws r → IsLegal r es → LinesStay r es →
        mass r line_count (replayed r es) ≤ mass_at line_count ((replayed r es).places 0) }
{}

/// Where the console is ready, nothing that is pending is for its session. So where no action fails, and no line is sent away,
/// what a patient console's session prints, block after block, is what the plain pool prints, line after line, each time until
/// nothing is pending for the session; where a line is broken off, what was printed begins what the pool prints.
pub fn patient_law()
    ensures ready { (r : Rules) (es : List Entry) (p : Pool) (out : List (List ℕ)) → HasGrammar r → KeepsActLaws r → IsLegal r es →
        LinesStay r es → Shows r (replayed r es) p out → IsReady ((replayed r es).places 0) → AreAside p.pending }
    ensures plain { (r : Rules) (before : List Entry) (lines : List (List ℕ)) (blocks : List (List Entry)) → HasGrammar r → KeepsActLaws r →
        IsBlind r → IsLegal r before → AllByRecursion (λ e. FeedsNothing e.event) before → NoneFails (before ++ entries_of blocks) →
        LinesStay r (before ++ entries_of blocks) → IsPatientSession r before lines blocks →
        IsPatientPlainSession r (boot_pool r) lines (shown blocks) }
    ensures broken_off { (r : Rules) (before : List Entry) (lines : List (List ℕ)) (blocks : List (List Entry)) (line : List ℕ)
        (es : List Entry) → HasGrammar r → KeepsActLaws r → IsBlind r → IsLegal r before → AllByRecursion (λ e. FeedsNothing e.event) before →
        IsPatientSession r before lines blocks → BeginsWith line es → IsLegal r ((before ++ entries_of blocks) ++ es) →
        NoneFails ((before ++ entries_of blocks) ++ es) → LinesStay r (before ++ entries_of blocks) →
        IsPatientPlainBrokenOff r (boot_pool r) lines (shown blocks) line (prints_of es) }
{}

/// The same by the console's own part: over a legal journal of which the part of locality 0 is blocks, each with its line first
/// and the console ready behind it, and then some entries, what the part prints, block after block, is what the plain pool
/// prints; where the entries behind the blocks begin with a line, what they print begins what the pool prints.
pub fn console_law()
    ensures plain { (r : Rules) (es : List Entry) (lines : List (List ℕ)) (blocks : List (List Entry)) (last : List Entry) → HasGrammar r →
        KeepsActLaws r → IsBlind r → IsLegal r es → NoneFails es → LinesStay r es → IsPatientPart r (part 0 es) lines blocks last →
        IsPatientPlainSession r (boot_pool r) lines (shown blocks) }
    ensures broken_off { (r : Rules) (es : List Entry) (lines : List (List ℕ)) (blocks : List (List Entry)) (line : List ℕ)
        (last : List Entry) → HasGrammar r → KeepsActLaws r → IsBlind r → IsLegal r es → NoneFails es → LinesStay r es →
        IsPatientPart r (part 0 es) lines blocks last → BeginsWith line last →
        IsPatientPlainBrokenOff r (boot_pool r) lines (shown blocks) line (prints_of last) }
{}
