//! What the top call itself writes for a line.
ghost use Rattle.std.specs.Prelude.{◌≡◌, ◌≢◌, [], IfOk, OnOk, OnErr, IfErr, false};
ghost use Rattle.hpx_own.specs.Texts.{audit_text, counted_text, line_text};
ghost use Rattle.hpx_ports.specs.Faults.{Rose};
ghost use Rattle.hpx_ports.specs.Told.{followed};
ghost use Rattle.hpx_world.specs.Quiet.{IsQuiet};
ghost use Rattle.hpx_top.specs.Owned.{own_text};
ghost use Rattle.hpx_top.specs.Parts.{IsOwn};
ghost use Rattle.hpx_top.specs.Session.{rules, WritesFront};
ghost use Rattle.hpx_top.specs.Texts.{Typed};

use crate::acts::AllActs;
use crate::session::{SessionFault, write};
use hpx_counters::counter::Counter;
use hpx_journal::journal::Journal;
use hpx_own::lines::{Handled, Refusal};
use hpx_own::texts::{audit_line, counted, no_objects};
use hpx_ports::sink::Sink;
use hpx_world::audit::{AuditLine, AuditLines};
use hpx_world::world::World;
use std::alloc::Global;

/// What the top call itself writes for a line.
#[derive(Drop)]
pub(crate) enum Own {
    Nothing,
    /// Why it is refused.
    Refusal(Refusal),
    /// The value of a counter.
    Value(Counter),
    /// A line for each object of which credit is out.
    Audit(AuditLines),
}

/// What is written for a line that is not too long. An `Err` is for want of memory for an audit.
pub(crate) fn own_of(
    alloc: Global,
    world: &World<AllActs>,
    handled: Handled,
) -> Result<Own, SessionFault>
    ensures own { IfOk result (λ own. (held : _) → (held ≡ false → handled ≡ Handled.Audit → IsQuiet world.now.nodes world.now.hand)
        → IsOwn (rules world.now) held (Typed handled) world.now.journal.entries (own_text own world.now.journal.entries)) }
    ensures cause { IfErr result (λ fault. fault ≡ SessionFault.OutOfMemory) }
{
    match handled {
        Handled::Audit => match world.audit(alloc) {
            Ok(lines) => Ok(Own::Audit(lines)),
            Err(_) => Err(SessionFault::OutOfMemory),
        },
        Handled::Count(counter) => Ok(Own::Value(counter)),
        Handled::Refused(refusal) => Ok(Own::Refusal(refusal)),
        Handled::Fed => Ok(Own::Nothing),
        Handled::Hold => Ok(Own::Nothing),
        Handled::Turn(_) => Ok(Own::Nothing),
        Handled::Drain => Ok(Own::Nothing),
    }
}

/// Writes a line of an audit.
fn write_line<K: Sink>(line: &AuditLine, sink: &mut K) -> Result<(), SessionFault>
    ensures held { OnOk result (K.held sink.new ≡ followed (K.held sink.old) (line_text line.now)) }
    ensures front { OnErr result (WritesFront (line_text line.now) (K.held sink.old) (K.held sink.new)) }
    ensures cause { IfErr result (λ fault. (fault ≡ SessionFault.Write) × Rose (K.faults sink.old) (K.faults sink.new)) }
    ensures stands { OnOk result (K.faults sink.new ≡ K.faults sink.old) }
{
    write(sink, audit_line(line).as_str().as_bytes())
}

/// Writes the lines of an audit that has some.
fn write_lines<K: Sink>(lines: &[AuditLine], sink: &mut K) -> Result<(), SessionFault>
    requires some { lines.now ≢ [] }
    ensures held { OnOk result (K.held sink.new ≡ followed (K.held sink.old) (audit_text lines.now)) }
    ensures front { OnErr result (WritesFront (audit_text lines.now) (K.held sink.old) (K.held sink.new)) }
    ensures cause { IfErr result (λ fault. (fault ≡ SessionFault.Write) × Rose (K.faults sink.old) (K.faults sink.new)) }
    ensures stands { OnOk result (K.faults sink.new ≡ K.faults sink.old) }
{
    for line in lines {
        write_line(line, sink)?;
    }
    Ok(())
}

/// Writes the lines of an audit, or that there is no object.
fn write_audit<K: Sink>(lines: &[AuditLine], sink: &mut K) -> Result<(), SessionFault>
    ensures held { OnOk result (K.held sink.new ≡ followed (K.held sink.old) (audit_text lines.now)) }
    ensures front { OnErr result (WritesFront (audit_text lines.now) (K.held sink.old) (K.held sink.new)) }
    ensures cause { IfErr result (λ fault. (fault ≡ SessionFault.Write) × Rose (K.faults sink.old) (K.faults sink.new)) }
    ensures stands { OnOk result (K.faults sink.new ≡ K.faults sink.old) }
{
    if lines.is_empty() {
        write(sink, no_objects())
    } else {
        write_lines(lines, sink)
    }
}

/// Writes the value of a counter.
fn write_counted<K: Sink>(
    counter: &Counter,
    journal: &Journal,
    sink: &mut K,
) -> Result<(), SessionFault>
    ensures held { OnOk result (K.held sink.new ≡ followed (K.held sink.old) (counted_text counter.now journal.now.entries)) }
    ensures front { OnErr result (WritesFront (counted_text counter.now journal.now.entries) (K.held sink.old) (K.held sink.new)) }
    ensures cause { IfErr result (λ fault. (fault ≡ SessionFault.Write) × Rose (K.faults sink.old) (K.faults sink.new)) }
    ensures stands { OnOk result (K.faults sink.new ≡ K.faults sink.old) }
{
    write(sink, counted(counter, journal).as_str().as_bytes())
}

/// Writes what the top call itself writes, where the journal is so.
pub(crate) fn write_own<K: Sink>(
    own: &Own,
    journal: &Journal,
    sink: &mut K,
) -> Result<(), SessionFault>
    ensures held { OnOk result (K.held sink.new ≡ followed (K.held sink.old) (own_text own.now journal.now.entries)) }
    ensures front { OnErr result (WritesFront (own_text own.now journal.now.entries) (K.held sink.old) (K.held sink.new)) }
    ensures cause { IfErr result (λ fault. (fault ≡ SessionFault.Write) × Rose (K.faults sink.old) (K.faults sink.new)) }
    ensures stands { OnOk result (K.faults sink.new ≡ K.faults sink.old) }
{
    match own {
        Own::Nothing => Ok(()),
        Own::Refusal(refusal) => write(sink, refusal.text()),
        Own::Value(counter) => write_counted(counter, journal, sink),
        Own::Audit(lines) => write_audit(lines.as_slice(), sink),
    }
}
