ghost use Rattle.std.specs.Prelude.{◌≡◌, ◌↔◌, IfOk, IsTrue};

use crate::memory::OutOfMemory;
use std::alloc::Global;

/// A value that can be copied, and compared as a whole.
pub trait Exact: Drop {
    /// Another value that is equal.
    fn duplicate(&self, alloc: Global) -> Result<Self, OutOfMemory>
        ensures { IfOk result (λ copy. copy ≡ self.now) };

    /// Whether two values are equal.
    fn same(&self, other: &Self) -> bool
        ensures { IsTrue result ↔ (self.now ≡ other.now) };
}

impl Exact for u8 {
    fn duplicate(&self, _alloc: Global) -> Result<u8, OutOfMemory> {
        Ok(*self)
    }

    fn same(&self, other: &u8) -> bool {
        *self == *other
    }
}

impl Exact for u32 {
    fn duplicate(&self, _alloc: Global) -> Result<u32, OutOfMemory> {
        Ok(*self)
    }

    fn same(&self, other: &u32) -> bool {
        *self == *other
    }
}

impl Exact for i64 {
    fn duplicate(&self, _alloc: Global) -> Result<i64, OutOfMemory> {
        Ok(*self)
    }

    fn same(&self, other: &i64) -> bool {
        *self == *other
    }
}
