//! What a console writes: texts, and what its journal printed.
ghost use Rattle.std.specs.Prelude.{◌≡◌, ◌≤◌, OnOk, OnErr, IfErr, length, drop};
ghost use Rattle.std.specs.List.{concat};
ghost use Rattle.hpx_journal.specs.Pool.{prints_of};
ghost use Rattle.hpx_ports.specs.Faults.{Rose};
ghost use Rattle.hpx_ports.specs.Told.{followed};
ghost use Rattle.hpx_top.specs.Session.{WritesFront};

use hpx_journal::journal::Journal;
use hpx_member::lines::LineFault;
use hpx_ports::fault::Failed;
use hpx_ports::sink::{Sink, write_all};
use hpx_top::session;

/// Writes a text.
pub(crate) fn write<K: Sink>(sink: &mut K, bytes: &[u8]) -> Result<(), LineFault>
    ensures held { OnOk result (K.held sink.new ≡ followed (K.held sink.old) bytes.now) }
    ensures front { OnErr result (WritesFront bytes.now (K.held sink.old) (K.held sink.new)) }
    ensures cause { IfErr result (λ fault. (fault ≡ LineFault.Write) × Rose (K.faults sink.old) (K.faults sink.new)) }
    ensures stands { OnOk result (K.faults sink.new ≡ K.faults sink.old) }
{
    match write_all(sink, bytes) {
        Ok(()) => Ok(()),
        Err(Failed) => Err(LineFault::Write),
    }
}

/// Writes what was printed since a cut of the journal.
pub(crate) fn show<K: Sink>(journal: &Journal, cut: u64, sink: &mut K) -> Result<(), LineFault>
    requires within { cut ≤ length journal.now.entries }
    ensures held { OnOk result (K.held sink.new ≡ followed (K.held sink.old) (concat (prints_of (drop cut journal.now.entries)))) }
    ensures front { OnErr result (WritesFront (concat (prints_of (drop cut journal.now.entries))) (K.held sink.old) (K.held sink.new)) }
    ensures cause { IfErr result (λ fault. (fault ≡ LineFault.Write) × Rose (K.faults sink.old) (K.faults sink.new)) }
    ensures stands { OnOk result (K.faults sink.new ≡ K.faults sink.old) }
{
    match session::show(journal, cut, sink) {
        Ok(()) => Ok(()),
        Err(_) => Err(LineFault::Write),
    }
}
