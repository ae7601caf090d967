ghost use Rattle.std.specs.Prelude.{◌≡◌, ◌≢◌, ◌≤◌, ◌↔◌, ◌∷◌, ◌++◌, [], Some, IsTrue, length, remove, slice_get, IfOk, IsOk, OnOk, OnErr, IsErrOf, IsOkUnless};
ghost use Rattle.hpx_ports.specs.Faults.{Rose, raised};
ghost use Rattle.hpx_ports.specs.Frames.{Delivers, events_of};
ghost use Rattle.hpx_ports.specs.Heard.{heard_of};
ghost use Rattle.hpx_ports.specs.Orders.{next_place, order_after};
ghost use Rattle.hpx_ports.specs.Plans.{fails_next, after_call};

use crate::fabric::{Fabric, Wire};
use crate::fault::{FabricFault, raise};
use crate::flight::Flight;
use crate::heard::Heard;
use crate::link::Latest;
use crate::order::Order;
use crate::plan::Plan;
use hpx_value::exact::Exact;
use hpx_value::items::{Bytes, Lengths};
use std::alloc::Global;
use std::marker::Model;

/// A fabric in memory that fails only for want of memory.
#[derive(Drop)]
pub struct SureFabric {
    flight: Flight,
    heard: Heard,
}

impl Model for SureFabric {
    ghost use Rattle.hpx_ports.specs.Carriage.{Delivery};

    ghost Value = { Delivery };

    ghost view = { λ f. record {
      flight = f.flight.flight;
      trace = f.flight.trace;
      order = f.flight.order;
      latest = f.heard;
    } };
}

impl SureFabric {
    /// No frame is in flight, and nothing has happened.
    pub fn new(alloc: Global, order: Order) -> SureFabric
        ensures { result ≡ record { flight = []; trace = []; order = order; latest = Latest.Never } }
    {
        SureFabric {
            flight: Flight::new(alloc, order),
            heard: Heard::never(),
        }
    }

    /// How many frames are in flight.
    pub fn in_flight(&self) -> usize
        ensures { result ≡ length self.now.flight }
    {
        self.flight.in_flight()
    }
}

impl Fabric for SureFabric {
    ghost use Rattle.std.specs.Prelude.{Some};

    ghost faults = { λ f. 0 };

    ghost latest = { λ f. f.latest };

    ghost flight = { λ f. Some f.flight };

    ghost trace = { λ f. Some f.trace };

    fn send(&mut self, from: u32, to: u32, frame: &[u8]) -> Result<(), FabricFault>
        ensures sure { IsOkUnless result FabricFault.OutOfMemory }
        ensures ok { OnOk result (self.new ≡ record self.old {
          flight = self.old.flight ++ (to, frame.now) ∷ [];
          trace = self.old.trace ++ Wire.Sent from to frame.now ∷ [];
        }) }
        ensures err { OnErr result (self.new ≡ self.old) }
    {
        self.flight.send(from, to, frame)?;
        Ok(())
    }

    /// Delivers the frame whose turn it is. It wants no memory.
    fn deliver(&mut self) -> Result<Option<(u32, Bytes)>, FabricFault>
        ensures sure { IsOk result }
        ensures got { IfOk result (λ got. got ≡ slice_get self.old.flight (next_place self.old.order (length self.old.flight))) }
        ensures ok { IfOk result (λ got. self.new ≡ record {
          flight = remove self.old.flight (next_place self.old.order (length self.old.flight));
          trace = self.old.trace ++ events_of got;
          order = order_after self.old.order got;
          latest = heard_of result;
        }) }

        ensures flight { IfOk result (λ got. Delivers (Some self.old.flight) (Some self.new.flight) got) }
    {
        let got = self.flight.deliver();
        self.heard = Heard::of(&got);
        Ok(got)
    }
}

/// A fabric in memory, of which chosen calls fail, and which keeps what happened.
#[derive(Drop)]
pub struct MemFabric {
    alloc: Global,
    flight: Flight,
    heard: Heard,
    trace: Vec<Wire>,
    sends: Plan,
    delivers: Plan,
    faults: u64,
}

impl Model for MemFabric {
    ghost use Rattle.hpx_ports.specs.Carriage.{Carriage};

    ghost Value = { Carriage };

    ghost view = { λ f. record {
      flight = f.flight.flight;
      trace = f.trace.items;
      order = f.flight.order;
      latest = f.heard;
      sends = f.sends;
      delivers = f.delivers;
      faults = f.faults;
    } };
}

impl MemFabric {
    /// No frame is in flight, and nothing has happened. The sends and the deliveries with these
    /// numbers are to fail, from 1.
    pub fn new(alloc: Global, order: Order, sends: Lengths, delivers: Lengths) -> MemFabric
        ensures { result ≡ record {
          flight = [];
          trace = [];
          order = order;
          latest = Latest.Never;
          sends = record { numbers = sends; calls = 0 };
          delivers = record { numbers = delivers; calls = 0 };
          faults = 0;
        } }
    {
        MemFabric {
            alloc,
            flight: Flight::new(alloc, order),
            heard: Heard::never(),
            trace: Vec::new(alloc),
            sends: Plan {
                numbers: sends,
                calls: 0,
            },
            delivers: Plan {
                numbers: delivers,
                calls: 0,
            },
            faults: 0,
        }
    }

    /// How many frames are in flight.
    pub fn in_flight(&self) -> usize
        ensures { result ≡ length self.now.flight }
    {
        self.flight.in_flight()
    }

    /// What happened, oldest first.
    pub fn trace(&self) -> &[Wire]
        ensures { result.now ≡ self.now.trace }
    {
        self.trace.as_slice()
    }

    /// How many calls failed, but for want of memory.
    pub fn faults(&self) -> u64
        ensures { result ≡ self.now.faults }
    {
        self.faults
    }
}

impl Fabric for MemFabric {
    ghost use Rattle.std.specs.Prelude.{Some};

    ghost faults = { λ f. f.faults };

    ghost latest = { λ f. f.latest };

    ghost flight = { λ f. Some f.flight };

    ghost trace = { λ f. Some f.trace };

    fn send(&mut self, from: u32, to: u32, frame: &[u8]) -> Result<(), FabricFault>
        ensures planned { IsErrOf result FabricFault.Failed ↔ IsTrue (fails_next self.old.sends) }
        ensures ok { OnOk result (self.new ≡ record self.old {
          flight = self.old.flight ++ (to, frame.now) ∷ [];
          trace = self.old.trace ++ Wire.Sent from to frame.now ∷ [];
          sends = after_call self.old.sends;
        }) }
        ensures failed { IsErrOf result FabricFault.Failed → self.new ≡ record self.old {
          sends = after_call self.old.sends;
          faults = raised self.old.faults;
        } }
        ensures no_memory { IsErrOf result FabricFault.OutOfMemory → self.new ≡ record self.old {
          sends = after_call self.old.sends;
        } }

        ensures flight_err { OnErr result (self.new.flight ≡ self.old.flight) }
        ensures trace_err { OnErr result (self.new.trace ≡ self.old.trace) }
        ensures cause { IsErrOf result FabricFault.Failed → Rose self.old.faults self.new.faults }
        ensures never_falls { self.old.faults ≤ self.new.faults }
    {
        if self.sends.next_fails() {
            self.faults = raise(self.faults);
            return Err(FabricFault::Failed);
        }
        let bytes = Bytes::from_vec(Vec::from_slice(self.alloc, frame)?);
        self.trace.reserve(1)?;
        self.flight.send(from, to, frame)?;
        self.trace.push_reserved(Wire::Sent { from, to, bytes });
        Ok(())
    }

    /// Delivers the frame whose turn it is, unless this delivery is to fail.
    fn deliver(&mut self) -> Result<Option<(u32, Bytes)>, FabricFault>
        ensures planned { IsErrOf result FabricFault.Failed ↔ IsTrue (fails_next self.old.delivers) }
        ensures got { IfOk result (λ got. got ≡ slice_get self.old.flight (next_place self.old.order (length self.old.flight))) }
        ensures ok { IfOk result (λ got. self.new ≡ record self.old {
          flight = remove self.old.flight (next_place self.old.order (length self.old.flight));
          trace = self.old.trace ++ events_of got;
          order = order_after self.old.order got;
          latest = heard_of result;
          delivers = after_call self.old.delivers;
        }) }
        ensures failed { IsErrOf result FabricFault.Failed → self.new ≡ record self.old {
          latest = Latest.Fault;
          delivers = after_call self.old.delivers;
          faults = raised self.old.faults;
        } }
        ensures no_memory { IsErrOf result FabricFault.OutOfMemory → self.new ≡ record self.old {
          latest = Latest.Fault;
          delivers = after_call self.old.delivers;
        } }

        ensures flight { IfOk result (λ got. Delivers (Some self.old.flight) (Some self.new.flight) got) }
        ensures memory { IsErrOf result FabricFault.OutOfMemory → Some self.old.flight ≢ Some [] }
        ensures flight_err { OnErr result (self.new.flight ≡ self.old.flight) }
        ensures trace_err { OnErr result (self.new.trace ≡ self.old.trace) }
        ensures cause { IsErrOf result FabricFault.Failed → Rose self.old.faults self.new.faults }
        ensures never_falls { self.old.faults ≤ self.new.faults }
    {
        self.heard = Heard::fault();
        if self.delivers.next_fails() {
            self.faults = raise(self.faults);
            return Err(FabricFault::Failed);
        }
        if let Some((to, bytes)) = self.flight.next() {
            let (to, bytes) = (*to, bytes.duplicate(self.alloc)?);
            self.trace.reserve(1)?;
            self.trace.push_reserved(Wire::Delivered { to, bytes });
        }
        let got = self.flight.deliver();
        self.heard = Heard::of(&got);
        Ok(got)
    }
}
