ghost use Rattle.std.specs.Prelude.{ℕ, List};
ghost use Rattle.std.specs.declared.option.Option.{Option};
ghost use Rattle.hpx_ports.specs.declared.fabric.Wire.{Wire};
ghost use Rattle.hpx_ports.specs.declared.link.Latest.{Latest};

use crate::fault::FabricFault;
use hpx_value::items::Bytes;

/// What happened to a frame.
#[derive(Drop)]
pub enum Wire {
    /// It was taken, to be carried.
    Sent { from: u32, to: u32, bytes: Bytes },
    /// It arrived.
    Delivered { to: u32, bytes: Bytes },
}

/// What carries frames from one locality to another.
pub trait Fabric: Send {
    ghost use Rattle.std.specs.Prelude.{◌≡◌, ◌≢◌, ◌≤◌, ◌∷◌, [], Some, IfOk, OnOk, OnErr, IsErrOf};
    ghost use Rattle.hpx_ports.specs.Faults.{Rose};
    ghost use Rattle.hpx_ports.specs.Told.{followed};
    ghost use Rattle.hpx_ports.specs.Frames.{Delivers, events_of};
    ghost use Rattle.hpx_ports.specs.Heard.{heard_of};

    /// How often it has failed. The count never falls, and stands still at `2^64 - 1`.
    ghost faults: { Self → ℕ };

    /// What the last delivery answered.
    ghost latest: { Self → Latest };

    /// The frames in flight, oldest first, where it tells: where each goes, and its bytes.
    ghost flight: { Self → Option (List (ℕ × List ℕ)) };

    /// What happened, oldest first, where it tells.
    ghost trace: { Self → Option (List Wire) };

    /// Takes a frame, to be carried.
    fn send(&mut self, from: u32, to: u32, frame: &[u8]) -> Result<(), FabricFault>
        ensures flight { OnOk result (flight self.new ≡ followed (flight self.old) ((to, frame.now) ∷ [])) }
        ensures trace { OnOk result (trace self.new ≡ followed (trace self.old) (Wire.Sent from to frame.now ∷ [])) }

        ensures flight_err { OnErr result (flight self.new ≡ flight self.old) }
        ensures trace_err { OnErr result (trace self.new ≡ trace self.old) }
        ensures latest { latest self.new ≡ latest self.old }
        ensures cause { IsErrOf result FabricFault.Failed → Rose (faults self.old) (faults self.new) }
        ensures stands { (IsErrOf result FabricFault.Failed → ⊥) → faults self.new ≡ faults self.old }
        ensures never_falls { faults self.old ≤ faults self.new };

    /// Delivers any one of the frames in flight: where it goes, and its bytes. `None` if there
    /// is none. Memory may be wanting only where there may be one.
    fn deliver(&mut self) -> Result<Option<(u32, Bytes)>, FabricFault>
        ensures flight { IfOk result (λ got. Delivers (flight self.old) (flight self.new) got) }
        ensures trace { IfOk result (λ got. trace self.new ≡ followed (trace self.old) (events_of got)) }

        ensures memory { IsErrOf result FabricFault.OutOfMemory → flight self.old ≢ Some [] }
        ensures flight_err { OnErr result (flight self.new ≡ flight self.old) }
        ensures trace_err { OnErr result (trace self.new ≡ trace self.old) }
        ensures latest { latest self.new ≡ heard_of result }
        ensures cause { IsErrOf result FabricFault.Failed → Rose (faults self.old) (faults self.new) }
        ensures stands { (IsErrOf result FabricFault.Failed → ⊥) → faults self.new ≡ faults self.old }
        ensures never_falls { faults self.old ≤ faults self.new };
}
