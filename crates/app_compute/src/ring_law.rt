//! Rings that lie in parts: the contract is the law.
ghost use Rattle.std.specs.Prelude.{◌≡◌, ℤ, List};
ghost use Rattle.std.specs.List.{AllByRecursion};
ghost use Rattle.app_compute.specs.Ring.{IsFilled, joined, ring_step, ring_stepped};

/// A ring whose parts are stepped together, each with the nearest numbers of those beside it, is stepped as a whole.
pub fn ring_law()
    ensures { (rows : List (List ℤ)) → AllByRecursion IsFilled rows → joined (ring_stepped rows) ≡ ring_step (joined rows) }
{}
