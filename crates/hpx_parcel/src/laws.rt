//! Laws of frames.

ghost use Rattle.std.specs.Prelude.{◌≡◌, ◌<◌, ◌≤◌, ℕ, List, Some, length};
ghost use Rattle.std.specs.List.{AllByRecursion};
ghost use Rattle.hpx_parcel.specs.Types.{Parcel};
ghost use Rattle.hpx_parcel.specs.Parcels.{Spells};
ghost use Rattle.hpx_parcel.specs.Reading.{parcel_of};
ghost use Rattle.hpx_parcel.specs.Credits.{StandIn, credits_of, credits_in, ids_in};

/// No bytes spell two parcels.
#[tactic(auto, using(crate::proofs::Frames::one_parcel))]
pub fn one_parcel()
    ensures { (bytes : List ℕ) (p q : Parcel) → Spells bytes p → Spells bytes q → p ≡ q }
{}

/// No parcel has two spellings.
#[tactic(auto, using(crate::proofs::Frames::one_spelling))]
pub fn one_spelling()
    ensures { (a b : List ℕ) (p : Parcel) → Spells a p → Spells b p → a ≡ b }
{}

/// What is read of bytes is what they spell.
#[tactic(auto, using(crate::proofs::Frames::parcel_spelled, crate::proofs::Frames::spelled_parcel))]
pub fn reading_law()
    ensures spelled { (bytes : List ℕ) (p : Parcel) → parcel_of bytes ≡ Some p → Spells bytes p }
    ensures read { (bytes : List ℕ) (p : Parcel) → Spells bytes p → parcel_of bytes ≡ Some p }
{}

/// The credits of a frame are those of the ids in its parcel.
pub fn credits_law()
    ensures { (bytes : List ℕ) (p : Parcel) → Spells bytes p → credits_in bytes ≡ credits_of (ids_in p) }
{}

/// The ids of a parcel stand in its spelling, each behind the one before it.
#[tactic(auto, using(crate::proofs::Standing::ids_stand))]
pub fn standing_law()
    ensures { (bytes : List ℕ) (p : Parcel) → Spells bytes p → StandIn (ids_in p) bytes }
{}

/// A spelling is short, and has bytes alone.
pub fn frame_law()
    ensures short { (bytes : List ℕ) (p : Parcel) → Spells bytes p → length bytes ≤ 65536 }
    ensures fits { (bytes : List ℕ) (p : Parcel) → Spells bytes p → AllByRecursion (λ b. b < 256) bytes }
{}
