//! An opener in memory, which is told what comes on its link.
ghost use Rattle.std.specs.Prelude.{◌≡◌, ◌≤◌, ◌↔◌, [], Some, None, IsTrue, IfOk, IsErrOf, IsOk};
ghost use Rattle.hpx_ports.specs.Faults.{Rose, raised};
ghost use Rattle.hpx_ports.specs.Plans.{fails_next, after_call};
ghost use Rattle.hpx_ports.specs.Links.{link_of};

use crate::fault::raise;
use crate::link::{LinkFault, Opener, Seat};
use crate::memory_link::MemLink;
use crate::plan::Plan;
use hpx_value::items::{Bytes, Lengths};
use std::alloc::Global;
use std::collections::VecDeque;
use std::marker::Model;
use std::mem;

/// An opener in memory. What it was given comes on its first link, and nothing on a later one.
#[derive(Drop)]
pub struct MemOpener {
    alloc: Global,
    coming: VecDeque<(u32, Bytes)>,
    sends: Lengths,
    receives: Lengths,
    connects: Plan,
    seat: Option<Seat>,
    faults: u64,
}

impl Model for MemOpener {
    ghost use Rattle.hpx_ports.specs.Links.{OpenerState};

    ghost Value = { OpenerState };

    ghost view = { λ o. record {
      coming = o.coming.items;
      sends = o.sends;
      receives = o.receives;
      connects = o.connects;
      seat = o.seat;
      faults = o.faults;
    } };
}

impl MemOpener {
    /// These bodies come on the first link, of which the sends and the receives with these numbers
    /// are to fail. The calls of `connect` with these numbers are to fail, from 1.
    pub fn new(
        alloc: Global,
        coming: VecDeque<(u32, Bytes)>,
        sends: Lengths,
        receives: Lengths,
        connects: Lengths,
    ) -> MemOpener
        ensures { result ≡ record {
          coming = coming.items;
          sends = sends;
          receives = receives;
          connects = record { numbers = connects; calls = 0 };
          seat = None;
          faults = 0;
        } }
    {
        MemOpener {
            alloc,
            coming,
            sends,
            receives,
            connects: Plan {
                numbers: connects,
                calls: 0,
            },
            seat: None,
            faults: 0,
        }
    }
}

impl Opener for MemOpener {
    type Link = MemLink;

    ghost faults = { λ o. o.faults };

    ghost asked = { λ o. record { times = o.connects.calls; seat = o.seat } };

    fn connect(&mut self, seat: Seat) -> Result<MemLink, LinkFault>
        ensures planned { IsErrOf result LinkFault.Failed ↔ IsTrue (fails_next self.old.connects) }
        ensures sure { (IsErrOf result LinkFault.Failed → ⊥) → IsOk result }
        ensures link { IfOk result (λ link. link ≡ link_of self.old) }
        ensures ok { IsOk result → self.new ≡ record { coming = []; sends = []; receives = []; connects = after_call self.old.connects; seat = Some seat; faults = self.old.faults } }
        ensures failed { IsErrOf result LinkFault.Failed → self.new ≡ record self.old { connects = after_call self.old.connects; seat = Some seat; faults = raised self.old.faults } }
        ensures cause { IsErrOf result LinkFault.Failed → Rose self.old.faults self.new.faults }
        ensures never_falls { self.old.faults ≤ self.new.faults }
    {
        self.seat = Some(seat);
        if self.connects.next_fails() {
            self.faults = raise(self.faults);
            return Err(LinkFault::Failed);
        }
        let coming = mem::replace(&mut self.coming, VecDeque::new(self.alloc));
        let sends = mem::replace(&mut self.sends, Lengths::new(self.alloc));
        let receives = mem::replace(&mut self.receives, Lengths::new(self.alloc));
        Ok(MemLink::new(self.alloc, coming, sends, receives))
    }
}
