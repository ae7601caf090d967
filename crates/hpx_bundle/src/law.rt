//! Laws of bundles.

ghost use Rattle.std.specs.Prelude.{◌≡◌, ◌∷◌, ◌++◌, ◌+◌, ◌≤◌, [], ℕ, List, Some, length, map};
ghost use Rattle.std.specs.List.{AllByRecursion};
ghost use Rattle.hpx_parcel.specs.Parcels.{IsFrame};
ghost use Rattle.hpx_bundle.specs.Bundles.{Fits, Bundles, IsLongestFront};
ghost use Rattle.hpx_bundle.specs.Unbundling.{parts_of};
ghost use Rattle.hpx_bundle.specs.Roads.{Frame, opened, all_opened, Held, parts_left};

/// What is read of bytes is what they bundle.
pub fn parts_law()
    ensures read { (bytes : List ℕ) (parts : List (List ℕ)) → Bundles bytes parts → parts_of bytes ≡ parts }
    ensures bundled { (bytes : List ℕ) (part : List ℕ) (others : List (List ℕ)) → parts_of bytes ≡ part ∷ others → Bundles bytes (part ∷ others) }
{}

/// No bytes bundle two lists.
#[tactic(auto, using(crate::proofs::Bundled::one_list))]
pub fn one_list()
    ensures { (bytes : List ℕ) (parts others : List (List ℕ)) → Bundles bytes parts → Bundles bytes others → parts ≡ others }
{}

/// No list has two bundles.
#[tactic(auto, using(crate::proofs::Bundled::one_bundle))]
pub fn one_bundle()
    ensures { (a b : List ℕ) (parts : List (List ℕ)) → Bundles a parts → Bundles b parts → a ≡ b }
{}

/// A frame of one parcel is its own bundle.
#[tactic(auto, using(crate::proofs::Bundled::alone))]
pub fn alone_law()
    ensures { (bytes : List ℕ) → IsFrame bytes → Bundles bytes (bytes ∷ []) }
{}

/// No front that fits is longer than the longest that fits with the next frame no more.
#[tactic(auto, using(crate::proofs::Loads::longest))]
pub fn front_law()
    ensures { (front frames other rest : List (List ℕ)) → AllByRecursion IsFrame frames → IsLongestFront front frames → frames ≡ other ++ rest → Fits other → length other ≤ length front }
{}

/// A bundle is opened to its parts, a frame of one parcel to itself, and frames that go on the road one after the other to the
/// parts of each in turn.
pub fn road_law()
    ensures bundle { (to : ℕ) (bytes : List ℕ) (parts : List (List ℕ)) → Bundles bytes parts → opened (to, bytes) ≡ map (λ part. (to, part)) parts }
    ensures alone { (to : ℕ) (bytes : List ℕ) → IsFrame bytes → opened (to, bytes) ≡ (to, bytes) ∷ [] }
    ensures last { (frames : List Frame) (frame : Frame) → all_opened (frames ++ frame ∷ []) ≡ all_opened frames ++ opened frame }
{}

/// What is left of a frame in hand when its next part is accepted, and when all are.
pub fn hand_law()
    ensures next { (held : Held) (part : Frame) (others : List Frame) → parts_left (Some held) ≡ part ∷ others → parts_left (Some (record held { accepted = held.accepted + 1 })) ≡ others }
    ensures none { (held : Held) → length (parts_of held.frame.1) ≤ held.accepted → parts_left (Some held) ≡ [] }
{}
