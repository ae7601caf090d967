//! Lines that a console is handed, and what is shown of its journal, in memory.
ghost use Rattle.std.specs.Prelude.{false};

use hpx_journal::entry::Event;
use hpx_journal::journal::Journal;
use hpx_member::lines::{LineFault, Lines};
use hpx_ports::fault::Failed;
use hpx_ports::memory_sink::MemSink;
use hpx_ports::sink::write_all;
use hpx_value::items::{Lengths, Text};
use std::alloc::{AllocError, Global};
use std::collections::VecDeque;

/// Lines, one after another, of which one may not be read, and the text that is shown.
#[derive(Drop)]
pub struct Script {
    alloc: Global,
    coming: VecDeque<Text>,
    /// How often a line was asked for.
    asked: u64,
    /// Which question finds none that can be read, from 1; 0 for none of them.
    unread: u64,
    /// How often a line was not read.
    faults: u64,
    pub sink: MemSink,
}

/// What a journal prints behind a cut.
fn prints(alloc: Global, journal: &Journal, cut: u64) -> Result<Vec<u8>, AllocError> {
    let mut text = Vec::new(alloc);
    for i in cut..journal.entries() {
        if let Some(entry) = journal.entry(i) {
            if let Event::Print { bytes } = &entry.event {
                text.extend_from_slice(bytes.as_slice())?;
            }
        }
    }
    Ok(text)
}

fn texts(alloc: Global, lines: &[&str]) -> Result<VecDeque<Text>, AllocError> {
    let mut texts = VecDeque::new(alloc);
    for line in lines {
        texts.push_back(Text::from_vec(Vec::from_slice(alloc, line.as_bytes())?))?;
    }
    Ok(texts)
}

impl Script {
    /// These lines come. This question for one fails, and these writes.
    pub fn new(
        alloc: Global,
        lines: &[&str],
        unread: u64,
        writes: &[u64],
    ) -> Result<Script, AllocError> {
        let writes = Lengths::from_vec(Vec::from_slice(alloc, writes)?);
        Ok(Script {
            alloc,
            coming: texts(alloc, lines)?,
            asked: 0,
            unread,
            faults: 0,
            sink: MemSink::new(alloc, writes),
        })
    }
}

// What is said is judged by the text; nothing is proved of it.
impl Lines for Script {
    ghost reads = { λ s. s.faults };

    ghost writes = { λ s. s.sink.faults };

    ghost full = { λ s. false };

    ghost went = { λ first now talk. Unit {0} };

    ghost broke = { λ first now fault talk tried. Unit {0} };

    fn next(&mut self, _alloc: Global) -> Result<Option<Text>, LineFault> {
        self.asked = self.asked.saturating_add(1);
        if self.asked == self.unread {
            self.faults = self.faults.saturating_add(1);
            return Err(LineFault::Read);
        }
        match self.coming.pop_front() {
            Some(line) if line.len() <= 1025 => Ok(Some(line)),
            _ => Ok(None),
        }
    }

    fn show(&mut self, journal: &Journal, cut: u64) -> Result<(), LineFault> {
        let Ok(text) = prints(self.alloc, journal, cut) else {
            return Err(LineFault::OutOfMemory);
        };
        match write_all(&mut self.sink, text.as_slice()) {
            Ok(()) => Ok(()),
            Err(Failed) => Err(LineFault::Write),
        }
    }
}
