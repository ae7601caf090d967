//! What is printed where nothing is run, and of counters behind what was run.
ghost use Rattle.std.specs.Prelude.{◌≡◌, ◌≢◌, ◌++◌, ◌⊎◌, [], codes, Err, OnOk, OnErr, IfErr};
ghost use Rattle.hpx_counters.specs.Counters.{counter_value, value_text};
ghost use Rattle.hpx_ports.specs.Faults.{Rose};
ghost use Rattle.hpx_ports.specs.Told.{followed};
ghost use Rattle.hpx_top.specs.Printed.{HasTold, counters_text, on_lines};
ghost use Rattle.hpx_top.specs.Session.{WritesFront};
ghost use Rattle.hpx_top.specs.Statuses.{status_after};
ghost use Rattle.hpx_top.specs.Usage.{IsNotice};

use crate::session::{SessionFault, write};
use crate::task::Notice;
use hpx_counters::counter::Counter;
use hpx_counters::counters::{list, value};
use hpx_journal::journal::Journal;
use hpx_options::texts;
use hpx_ports::sink::Sink;
use hpx_value::items::Texts;
use hpx_value::memory::OutOfMemory;
use std::alloc::Global;

/// Writes a text and a newline.
fn write_line<K: Sink>(text: &[u8], sink: &mut K) -> Result<(), SessionFault>
    ensures held { OnOk result (K.held sink.new ≡ followed (K.held sink.old) (text.now ++ codes "\n")) }
    ensures front { OnErr result (WritesFront (text.now ++ codes "\n") (K.held sink.old) (K.held sink.new)) }
    ensures cause { IfErr result (λ fault. (fault ≡ SessionFault.Write) × Rose (K.faults sink.old) (K.faults sink.new)) }
    ensures stands { OnOk result (K.faults sink.new ≡ K.faults sink.old) }
{
    write(sink, text)?;
    write(sink, b"\n")
}

/// Writes texts, each with a newline behind it.
fn write_lines<K: Sink>(texts: &Texts, sink: &mut K) -> Result<(), SessionFault>
    ensures held { OnOk result (K.held sink.new ≡ followed (K.held sink.old) (on_lines texts.now)) }
    ensures front { OnErr result (WritesFront (on_lines texts.now) (K.held sink.old) (K.held sink.new)) }
    ensures cause { IfErr result (λ fault. (fault ≡ SessionFault.Write) × Rose (K.faults sink.old) (K.faults sink.new)) }
    ensures stands { OnOk result (K.faults sink.new ≡ K.faults sink.old) }
{
    for text in texts.as_slice() {
        write_line(text.as_slice(), sink)?;
    }
    Ok(())
}

/// Writes the value of a counter.
fn write_value<K: Sink>(
    counter: &Counter,
    journal: &Journal,
    sink: &mut K,
) -> Result<(), SessionFault>
    ensures held { OnOk result (K.held sink.new ≡ followed (K.held sink.old) (value_text counter.now (counter_value counter.now journal.now.entries))) }
    ensures front { OnErr result (WritesFront (value_text counter.now (counter_value counter.now journal.now.entries)) (K.held sink.old) (K.held sink.new)) }
    ensures cause { IfErr result (λ fault. (fault ≡ SessionFault.Write) × Rose (K.faults sink.old) (K.faults sink.new)) }
    ensures stands { OnOk result (K.faults sink.new ≡ K.faults sink.old) }
{
    let line = counter.line(value(counter, journal));
    write(sink, line.as_str().as_bytes())
}

/// Writes the values of counters, which takes no memory.
pub fn write_values<K: Sink>(
    counters: &[Counter],
    journal: &Journal,
    sink: &mut K,
) -> Result<(), SessionFault>
    ensures held { OnOk result (K.held sink.new ≡ followed (K.held sink.old) (counters_text counters.now journal.now.entries)) }
    ensures front { OnErr result (WritesFront (counters_text counters.now journal.now.entries) (K.held sink.old) (K.held sink.new)) }
    ensures cause { IfErr result (λ fault. (fault ≡ SessionFault.Write) × Rose (K.faults sink.old) (K.faults sink.new)) }
    ensures stands { OnOk result (K.faults sink.new ≡ K.faults sink.old) }
    ensures some { OnErr result (counters.now ≢ []) }
{
    for counter in counters {
        write_value(counter, journal, sink)?;
    }
    Ok(())
}

/// Prints a text that takes no run.
pub(crate) fn print<K: Sink>(
    alloc: Global,
    notice: Notice,
    sink: &mut K,
) -> Result<(), SessionFault>
    requires { IsNotice notice }
    ensures told { HasTold notice (status_after result) (K.held sink.old) (K.held sink.new) }
    ensures write { result ≡ Err SessionFault.Write → Rose (K.faults sink.old) (K.faults sink.new) }
    ensures write_only { result ≢ Err SessionFault.Write → K.faults sink.new ≡ K.faults sink.old }
    ensures cause { IfErr result (λ fault. (fault ≡ SessionFault.Write) ⊎ (fault ≡ SessionFault.OutOfMemory)) }
{
    match notice {
        Notice::Help => write(sink, texts::help()),
        Notice::Version => write(sink, texts::version()),
        Notice::Counters(localities) => match list(alloc, localities) {
            Ok(names) => write_lines(&names, sink),
            Err(OutOfMemory) => Err(SessionFault::OutOfMemory),
        },
    }
}
