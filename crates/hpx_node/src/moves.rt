//! The moves of a locality: those that were granted, those with which objects came, and what may stand nowhere.
ghost use Rattle.std.specs.Prelude.{◌≡◌, ◌≤◌, ◌<◌, ◌+◌, ◌++◌, ◌∷◌, ◌↔◌, [], Some, IsTrue, OnOk, IfSome, IfNone, length, slice_get};
ghost use Rattle.std.specs.List.{remove};

use hpx_tables::kept::{Arrival, Letter};
use hpx_tables::queue::Queue;
use hpx_value::memory::OutOfMemory;
use std::alloc::Global;
use std::marker::Model;

/// Moves that were granted, messages that stay for good, and the moves with which objects came. Memory is taken by `reserve` alone.
#[derive(Drop)]
pub struct Moves {
    leaving: Queue<Letter>,
    stray: Queue<Letter>,
    came: Vec<Arrival>,
}

impl Model for Moves {
    ghost use Rattle.std.specs.Prelude.{◌-◌, min, vec_len, vec_capacity};
    ghost use Rattle.hpx_node.specs.Moving.{Moving};

    ghost Value = { Moving };

    ghost view = { λ m. record {
      leaving = m.leaving.items;
      stray = m.stray.items;
      came = m.came.items;
      spare = min m.leaving.spare (min m.stray.spare (vec_capacity m.came - vec_len m.came));
    } };
}

impl Moves {
    /// None.
    pub fn new(alloc: Global) -> Moves
        ensures leaving { result.leaving ≡ [] }
        ensures stray { result.stray ≡ [] }
        ensures came { result.came ≡ [] }
    {
        Moves {
            leaving: Queue::new(alloc),
            stray: Queue::new(alloc),
            came: Vec::new(alloc),
        }
    }

    /// Makes memory for so many more of each.
    pub fn reserve(&mut self, n: u32) -> Result<(), OutOfMemory>
        ensures rest { self.new ≡ record self.old { spare = self.new.spare } }
        ensures spare { OnOk result (n ≤ self.new.spare) }
    {
        let more = n as usize;
        self.leaving.reserve(more)?;
        self.stray.reserve(more)?;
        self.came.reserve(more)?;
        Ok(())
    }

    /// Whether there are none.
    pub fn is_empty(&self) -> bool
        ensures { IsTrue result ↔ (self.now.leaving ≡ []) × (self.now.stray ≡ []) × (self.now.came ≡ []) }
    {
        self.leaving.is_empty() && self.stray.is_empty() && self.came.is_empty()
    }

    /// The moves that were granted: their objects are to leave.
    pub fn leaving(&self) -> &Queue<Letter>
        ensures { result.now.items ≡ self.now.leaving }
    {
        &self.leaving
    }

    /// The messages that stay for good: objects that may not stand here, and actions on nothing.
    pub fn stray(&self) -> &Queue<Letter>
        ensures { result.now.items ≡ self.now.stray }
    {
        &self.stray
    }

    /// The moves with which objects came, until they are done.
    pub fn came(&self) -> &[Arrival]
        ensures { result.now ≡ self.now.came }
    {
        self.came.as_slice()
    }

    /// A move was granted.
    pub fn mark(&mut self, letter: Letter)
        requires { 1 ≤ self.old.spare }
        ensures rest { self.new ≡ record self.old { leaving = self.old.leaving ++ letter ∷ []; spare = self.new.spare } }
        ensures spare { self.old.spare ≤ self.new.spare + 1 }
    {
        self.leaving.push_back_reserved(letter);
    }

    /// The object leaves of the granted move at i.
    pub fn leave(&mut self, i: usize) -> Option<Letter>
        ensures some { IfSome result (λ letter. (slice_get self.old.leaving i ≡ Some letter) × (self.new ≡ record self.old { leaving = remove self.old.leaving i; spare = self.new.spare })) }
        ensures none { IfNone result (length self.old.leaving ≤ i) }
        ensures spare { self.old.spare ≤ self.new.spare }
    {
        self.leaving.remove(i)
    }

    /// A message stays for good.
    pub fn park(&mut self, letter: Letter)
        requires { 1 ≤ self.old.spare }
        ensures rest { self.new ≡ record self.old { stray = self.old.stray ++ letter ∷ []; spare = self.new.spare } }
        ensures spare { self.old.spare ≤ self.new.spare + 1 }
    {
        self.stray.push_back_reserved(letter);
    }

    /// An object came with its MOVE.
    pub fn bring(&mut self, arrival: Arrival)
        requires { 1 ≤ self.old.spare }
        ensures rest { self.new ≡ record self.old { came = self.old.came ++ arrival ∷ []; spare = self.new.spare } }
        ensures spare { self.old.spare ≤ self.new.spare + 1 }
    {
        self.came.push_reserved(arrival);
    }

    /// The MOVE at i with which an object came is done.
    pub fn forget(&mut self, i: usize)
        requires { i < length self.old.came }
        ensures rest { self.new ≡ record self.old { came = remove self.old.came i; spare = self.new.spare } }
        ensures spare { self.old.spare ≤ self.new.spare }
    {
        self.came.remove(i);
    }
}
