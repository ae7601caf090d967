//! What `fib` prints: the contracts are the law.
ghost use Rattle.std.specs.Prelude.{◌≡◌, ◌≤◌, ◌∷◌, [], ℕ, List, Option};
ghost use Rattle.std.specs.List.{concat};
ghost use Rattle.hpx_journal.specs.Data.{Parcel};
ghost use Rattle.hpx_journal.specs.Entries.{Rules};
ghost use Rattle.hpx_journal.specs.Laws.{HasGrammar};
ghost use Rattle.hpx_journal.specs.declared.entry.Entry.{Entry};
ghost use Rattle.hpx_journal.specs.Pool.{NoneFails, prints_of};
ghost use Rattle.hpx_journal.specs.Sessions.{BeginsWith, IsBlock};
ghost use Rattle.hpx_journal.specs.Whole.{IsLegal};
ghost use Rattle.app_compute.specs.FibLaw.{IsFront, IsQuestion, fed_line, fib_text};
ghost use Rattle.app_compute.specs.Judging.{IsJudged, judging_alone};

/// Whatever the number of localities and the order in which frames come: where the line is fed at boot, and no action fails,
/// `fib` prints `fibonacci(N) == F(N)` and nothing else (`whole`), and wherever it is broken off, the front of that
/// (`broken_off`). The acts of this crate are such acts, with no other session beside (`alone`).
pub fn fib_law()
    ensures whole { (r : Rules) (n t : ℕ) (es : List Entry) → IsJudged r → IsQuestion n t → NoneFails es → IsBlock r [] (fed_line n t) es
        → prints_of es ≡ fib_text n ∷ [] }
    ensures broken_off { (r : Rules) (n t : ℕ) (es : List Entry) → IsJudged r → IsQuestion n t → NoneFails es → BeginsWith (fed_line n t) es → IsLegal r es
        → IsFront (concat (prints_of es)) (fib_text n) }
    ensures alone { (n log limit : ℕ) (parcel_of : List ℕ → Option Parcel) → 1 ≤ n → HasGrammar (judging_alone n log limit parcel_of)
        → IsJudged (judging_alone n log limit parcel_of) }
{}
