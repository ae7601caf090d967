ghost use Rattle.std.specs.Prelude.{◌≡◌, ◌≤◌, ℕ, List, IfOk, OnOk, OnErr};
ghost use Rattle.std.specs.declared.option.Option.{Option};
ghost use Rattle.hpx_ports.specs.Faults.{Rose};
ghost use Rattle.hpx_ports.specs.Told.{followed};
ghost use Rattle.hpx_ports.specs.Bytes.{Writes, WritesPart};

use crate::fault::Failed;

/// Where bytes go.
pub trait Sink {
    /// How often it has failed. The count never falls, and stands still at `2^64 - 1`.
    ghost faults: { Self → ℕ };

    /// The bytes that it holds, where it tells.
    ghost held: { Self → Option (List ℕ) };

    /// Takes bytes from the front of a piece, and answers how many: one at least, if there is one.
    fn write(&mut self, piece: &[u8]) -> Result<usize, Failed>
        ensures ok { IfOk result (λ n. Writes n piece.now (held self.old) (held self.new)) }
        ensures stands { OnOk result (faults self.new ≡ faults self.old) }
        ensures err { OnErr result (held self.new ≡ held self.old) }
        ensures cause { OnErr result (Rose (faults self.old) (faults self.new)) }
        ensures never_falls { faults self.old ≤ faults self.new };
}

/// Writes all the bytes, in as many pieces as it takes. A failure leaves some first ones written.
pub fn write_all<K: Sink>(sink: &mut K, bytes: &[u8]) -> Result<(), Failed>
    ensures ok { OnOk result (K.held sink.new ≡ followed (K.held sink.old) bytes.now) }
    ensures stands { OnOk result (K.faults sink.new ≡ K.faults sink.old) }
    ensures err { OnErr result (WritesPart bytes.now (K.held sink.old) (K.held sink.new)) }
    ensures cause { OnErr result (Rose (K.faults sink.old) (K.faults sink.new)) }
    ensures never_falls { K.faults sink.old ≤ K.faults sink.new }
{
    let mut at = 0;
    while at < bytes.len() {
        at += sink.write(&bytes[at..])?;
    }
    Ok(())
}
