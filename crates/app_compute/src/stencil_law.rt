//! What `stencil` prints: the contracts are the law.
ghost use Rattle.std.specs.Prelude.{◌≡◌, ◌≤◌, ◌∷◌, [], ℕ, List, Option, length};
ghost use Rattle.std.specs.List.{AllByRecursion, concat};
ghost use Rattle.hpx_journal.specs.Data.{Parcel};
ghost use Rattle.hpx_journal.specs.Entries.{Rules};
ghost use Rattle.hpx_journal.specs.Laws.{HasGrammar};
ghost use Rattle.hpx_journal.specs.declared.entry.Entry.{Entry};
ghost use Rattle.hpx_journal.specs.Pool.{NoneFails, prints_of};
ghost use Rattle.hpx_journal.specs.Sessions.{BeginsWith, IsBlock};
ghost use Rattle.hpx_journal.specs.Whole.{IsLegal};
ghost use Rattle.app_compute.specs.FibLaw.{IsFront};
ghost use Rattle.app_compute.specs.Judging.{IsJudged, judging_alone};
ghost use Rattle.app_compute.specs.Ring.{stencil_texts};
ghost use Rattle.app_compute.specs.StencilLaw.{IsAsked, ring_fed};

/// Whatever the number of localities and the order in which frames come: where the line is fed at boot, and no action fails,
/// `stencil` prints for each step the row of the whole ring as it is then, in order, and nothing else (`whole`), and wherever
/// it is broken off, the front of that (`broken_off`). Each row is short enough to be printed (`short`). The acts of this crate
/// are such acts, with no other session beside (`alone`).
pub fn stencil_law()
    ensures whole { (r : Rules) (p q s : ℕ) (es : List Entry) → IsJudged r → IsAsked p q s → NoneFails es → IsBlock r [] (ring_fed p q s) es
        → prints_of es ≡ stencil_texts p s }
    ensures broken_off { (r : Rules) (p q s : ℕ) (es : List Entry) → IsJudged r → IsAsked p q s → NoneFails es → BeginsWith (ring_fed p q s) es → IsLegal r es
        → IsFront (concat (prints_of es)) (concat (stencil_texts p s)) }
    ensures short { (p s : ℕ) → p ≤ 1024 → AllByRecursion (λ text. length text ≤ 16384) (stencil_texts p s) }
    ensures alone { (n log limit : ℕ) (parcel_of : List ℕ → Option Parcel) → 1 ≤ n → HasGrammar (judging_alone n log limit parcel_of)
        → IsJudged (judging_alone n log limit parcel_of) }
{}
