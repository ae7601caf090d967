ghost use Rattle.std.specs.Prelude.{◌≡◌, ◌∷◌, ◌++◌, [], Some, length, remove, slice_get, option_map, OnOk, OnErr};
ghost use Rattle.hpx_ports.specs.declared.fabric.Wire.TheVariants.{Sent as WireSent};
ghost use Rattle.hpx_ports.specs.Orders.{next_place, order_after};
ghost use Rattle.hpx_ports.specs.Frames.{Delivers, events_of};

use crate::order::Order;
use hpx_value::items::Bytes;
use hpx_value::memory::OutOfMemory;
use http_server::Log;
use std::alloc::Global;
use std::collections::VecDeque;
use std::marker::Model;

/// What happened to a frame, its bytes aside.
#[derive(Clone, Copy, Debug, PartialEq, Eq)]
pub enum Stage {
    /// It was taken, to be carried.
    Sent { from: u32, to: u32 },
    /// It arrived.
    Delivered { to: u32 },
}

/// Frames in flight in memory. What happened to them is for proofs alone, and takes no memory.
#[derive(Drop)]
pub struct Flight {
    alloc: Global,
    frames: VecDeque<(u32, Bytes)>,
    stages: Log<Stage, Bytes>,
    order: Order,
}

impl Model for Flight {
    ghost use Rattle.std.specs.Prelude.{map};
    ghost use Rattle.hpx_ports.specs.Carriage.{Carried};
    ghost use Rattle.hpx_ports.specs.Staged.{wire_of};

    ghost Value = { Carried };

    ghost view = { λ f. record { flight = f.frames.items; trace = map wire_of f.stages.items; order = f.order } };
}

impl Flight {
    /// No frame is in flight, and nothing has happened.
    pub fn new(alloc: Global, order: Order) -> Flight
        ensures flight { result.flight ≡ [] }
        ensures trace { result.trace ≡ [] }
        ensures order { result.order ≡ order }
    {
        Flight {
            alloc,
            frames: VecDeque::new(alloc),
            stages: Log::new(),
            order,
        }
    }

    /// How many frames are in flight.
    pub fn in_flight(&self) -> usize
        ensures { result ≡ length self.now.flight }
    {
        self.frames.len()
    }

    /// Takes a frame, to be delivered later.
    pub fn send(&mut self, from: u32, to: u32, frame: &[u8]) -> Result<(), OutOfMemory>
        ensures flight { OnOk result (self.new.flight ≡ self.old.flight ++ (to, frame.now) ∷ []) }
        ensures trace { OnOk result (self.new.trace ≡ self.old.trace ++ WireSent from to frame.now ∷ []) }
        ensures order { self.new.order ≡ self.old.order }
        ensures err { OnErr result (self.new ≡ self.old) }
    {
        let bytes = Bytes::from_vec(Vec::from_slice(self.alloc, frame)?);
        self.frames.reserve(1)?;
        self.stages = self.stages.and(&Stage::Sent { from, to }, &bytes);
        self.frames.push_back_reserved((to, bytes));
        Ok(())
    }

    /// The frame whose turn it is: where it goes, and its bytes.
    pub fn next(&self) -> Option<&(u32, Bytes)>
        ensures { option_map (λ frame. frame.now) result ≡ slice_get self.now.flight (next_place self.now.order (length self.now.flight)) }
    {
        if self.frames.is_empty() {
            return None;
        }
        self.frames.get(self.order.place(self.frames.len()))
    }

    /// Delivers the frame whose turn it is. The first and the last cost nothing of the others.
    pub fn deliver(&mut self) -> Option<(u32, Bytes)>
        ensures got { result ≡ slice_get self.old.flight (next_place self.old.order (length self.old.flight)) }
        ensures flight { self.new.flight ≡ remove self.old.flight (next_place self.old.order (length self.old.flight)) }
        ensures trace { self.new.trace ≡ self.old.trace ++ events_of result }
        ensures order { self.new.order ≡ order_after self.old.order result }
        ensures delivers { Delivers (Some self.old.flight) (Some self.new.flight) result }
    {
        if self.frames.is_empty() {
            return None;
        }
        let place = self.order.place(self.frames.len());
        let frame = self.frames.remove(place)?;
        self.stages = self.stages.and(&Stage::Delivered { to: frame.0 }, &frame.1);
        self.order = self.order.after();
        Some(frame)
    }
}
