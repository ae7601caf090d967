//! The lines of a made session, one at a time.
ghost use Rattle.std.specs.Prelude.{◌≡◌, ◌≤◌, IfOk, OnErr};
ghost use Rattle.app_load.specs.Load.{session_lines};
ghost use Rattle.app_load.specs.Session.{IsNext};

mod position;

use crate::session::position::Position;
use hpx_value::items::Text;
use hpx_value::memory::OutOfMemory;
use std::alloc::Global;
use std::marker::Model;

/// The lines of a made session that are still to be fed.
///
/// First come those that make eight objects, then those that follow from a number, and then a query of each name that
/// stands for an object in the end.
#[derive(Drop)]
pub struct Session {
    position: Position,
}

impl Model for Session {
    ghost use Rattle.std.specs.Prelude.{ℕ, List};
    ghost use Rattle.app_load.specs.Session.{lines_left, IsPosition};

    ghost Value = { List (List ℕ) };

    ghost view = { λ s. lines_left s.position };

    ghost invariant = { λ s. IsPosition s.position };
}

impl Session {
    /// All lines of a session with so many made lines at n localities, which follow from a number to start with.
    pub fn new(start: u32, count: u32, n: u32) -> Session
        requires some { 1 ≤ n }
        requires few { n ≤ 64 }
        ensures { result ≡ session_lines start count n }
    {
        Session {
            position: Position::new(start, count, n),
        }
    }

    /// The next line. Where there is no memory for it, it is still the next.
    pub fn next(&mut self, alloc: Global) -> Result<Option<Text>, OutOfMemory>
        ensures next { IfOk result (λ line. IsNext line self.old self.new) }
        ensures err { OnErr result (self.new ≡ self.old) }
    {
        self.position.next(alloc)
    }
}
