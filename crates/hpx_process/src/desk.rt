//! A desk: where a person sits at the console of several processes.
ghost use Rattle.std.specs.Prelude.{◌≡◌, ◌<◌, ◌==◌, [], false, ℕ, List, Ok, IfOk, OnOk, IfErr};
ghost use Rattle.app_console.specs.Lines.{opening};
ghost use Rattle.hpx_member.specs.Talks.{IsLineCause};
ghost use Rattle.hpx_top.specs.Reader.{bytes_left};
ghost use Rattle.hpx_process.specs.Deeds.{Asking, Deed, Does, Fails, Opening, Opens, sitting};
ghost use Rattle.hpx_process.specs.Asked.{IsAskedBy, Types};

use crate::sheet::Sheet;
use crate::show::{show, write};
use app_console::lines::{ACCUMULATOR, PROMPT, TOO_LONG, marked, opening};
use hpx_journal::journal::Journal;
use hpx_member::lines::{LineFault, Lines};
use hpx_ports::sink::Sink;
use hpx_ports::source::Source;
use hpx_top::consoles::UserConsole;
use hpx_top::reader::{LineReader, Next, ReadFault};
use hpx_value::items::Text;
use hpx_value::memory::OutOfMemory;
use std::alloc::Global;

/// What came of a prompt.
#[derive(Drop)]
pub enum Answer {
    /// A line, as it is fed.
    Line(Text),
    /// A line that is too long, and is not fed.
    Long,
    /// The lines are over.
    Over,
}

/// Hands a console the lines that are typed, and writes what a person reads: the commands, a prompt before each line, and what is printed.
#[derive(Drop)]
pub struct Desk<'s, 'k, 'r, S: Source, K: Sink> {
    pub(crate) source: &'s mut S,
    pub(crate) sink: &'k mut K,
    pub(crate) reader: &'r mut LineReader,
    pub(crate) sheet: Sheet,
}

impl<'s, 'k, 'r, S: Source, K: Sink> Desk<'s, 'k, 'r, S, K> {
    /// Writes the commands, and hands out the line by which the accumulator is made.
    fn open(&mut self, alloc: Global) -> Result<Text, LineFault>
        requires sheet { self.old.sheet ≡ Sheet.Blank }
        ensures source { self.new.source.ghost_name ≡ self.old.source.ghost_name }
        ensures sink { self.new.sink.ghost_name ≡ self.old.sink.ghost_name }
        ensures line { IfOk result (λ line. line ≡ opening) }
        ensures does { let x = sitting self.old.sheet self.old.reader.now (S.left self.old.source.now) (S.taken self.old.source.now) (K.held self.old.sink.now) in
            let z = sitting self.new.sheet self.new.reader.now (S.left self.new.source.now) (S.taken self.new.source.now) (K.held self.new.sink.now) in
            OnOk result (Does Opens x z) }
        ensures fails { let x = sitting self.old.sheet self.old.reader.now (S.left self.old.source.now) (S.taken self.old.source.now) (K.held self.old.sink.now) in
            let z = sitting self.new.sheet self.new.reader.now (S.left self.new.source.now) (S.taken self.new.source.now) (K.held self.new.sink.now) in
            IfErr result (λ fault. Fails fault Opening x z) }
        ensures calm { OnOk result ((S.faults self.new.source.now ≡ S.faults self.old.source.now) × (K.faults self.new.sink.now ≡ K.faults self.old.sink.now)) }
        ensures cause { IfErr result (IsLineCause (S.faults self.old.source.now) (S.faults self.new.source.now) (K.faults self.old.sink.now) (K.faults self.new.sink.now)
            (self.new.reader.now.read == 67108864)) }
    {
        write(self.sink, UserConsole::Accumulator.commands())?;
        match opening(alloc) {
            Ok(line) => {
                self.sheet = Sheet::Open;
                Ok(line)
            }
            Err(OutOfMemory) => Err(LineFault::OutOfMemory),
        }
    }

    /// Writes a prompt, and takes what is typed.
    fn take_line(&mut self, alloc: Global) -> Result<Answer, LineFault>
        requires sheet { self.old.sheet ≡ Sheet.Open }
        ensures source { self.new.source.ghost_name ≡ self.old.source.ghost_name }
        ensures sink { self.new.sink.ghost_name ≡ self.old.sink.ghost_name }
        ensures sheet { self.new.sheet ≡ self.old.sheet }
        ensures types { let x = sitting self.old.sheet self.old.reader.now (S.left self.old.source.now) (S.taken self.old.source.now) (K.held self.old.sink.now) in
            let z = sitting self.new.sheet self.new.reader.now (S.left self.new.source.now) (S.taken self.new.source.now) (K.held self.new.sink.now) in
            IfOk result (λ answer. Types answer x z) }
        ensures fails { let x = sitting self.old.sheet self.old.reader.now (S.left self.old.source.now) (S.taken self.old.source.now) (K.held self.old.sink.now) in
            let z = sitting self.new.sheet self.new.reader.now (S.left self.new.source.now) (S.taken self.new.source.now) (K.held self.new.sink.now) in
            IfErr result (λ fault. (longs lost : List (List ℕ)) × Fails fault (Asking longs lost) x z) }
        ensures fewer { result ≡ Ok Answer.Long → bytes_left self.new.reader.now < bytes_left self.old.reader.now }
        ensures calm { OnOk result ((S.faults self.new.source.now ≡ S.faults self.old.source.now) × (K.faults self.new.sink.now ≡ K.faults self.old.sink.now)) }
        ensures cause { IfErr result (IsLineCause (S.faults self.old.source.now) (S.faults self.new.source.now) (K.faults self.old.sink.now) (K.faults self.new.sink.now)
            (self.new.reader.now.read == 67108864)) }
    {
        write(self.sink, PROMPT)?;
        match self.reader.next_line(alloc, self.source) {
            Ok(Next::Line(line)) => match marked(alloc, ACCUMULATOR, line.as_slice()) {
                Ok(text) => Ok(Answer::Line(text)),
                Err(OutOfMemory) => Err(LineFault::OutOfMemory),
            },
            Ok(Next::Long) => {
                write(self.sink, TOO_LONG)?;
                Ok(Answer::Long)
            }
            Ok(Next::Quit) => Ok(Answer::Over),
            Ok(Next::End) => Ok(Answer::Over),
            Ok(Next::Full) => Err(LineFault::InputFull),
            Err(ReadFault::Failed) => Err(LineFault::Read),
            Err(ReadFault::OutOfMemory) => Err(LineFault::OutOfMemory),
        }
    }

    /// Asks until there is a line that can be fed.
    fn ask(&mut self, alloc: Global) -> Result<Option<Text>, LineFault>
        requires sheet { self.old.sheet ≡ Sheet.Open }
        ensures source { self.new.source.ghost_name ≡ self.old.source.ghost_name }
        ensures sink { self.new.sink.ghost_name ≡ self.old.sink.ghost_name }
        ensures does { let x = sitting self.old.sheet self.old.reader.now (S.left self.old.source.now) (S.taken self.old.source.now) (K.held self.old.sink.now) in
            let z = sitting self.new.sheet self.new.reader.now (S.left self.new.source.now) (S.taken self.new.source.now) (K.held self.new.sink.now) in
            IfOk result (λ line. (deed : Deed) × IsAskedBy line deed × Does deed x z) }
        ensures fails { let x = sitting self.old.sheet self.old.reader.now (S.left self.old.source.now) (S.taken self.old.source.now) (K.held self.old.sink.now) in
            let z = sitting self.new.sheet self.new.reader.now (S.left self.new.source.now) (S.taken self.new.source.now) (K.held self.new.sink.now) in
            IfErr result (λ fault. (longs lost : List (List ℕ)) × Fails fault (Asking longs lost) x z) }
        ensures calm { OnOk result ((S.faults self.new.source.now ≡ S.faults self.old.source.now) × (K.faults self.new.sink.now ≡ K.faults self.old.sink.now)) }
        ensures cause { IfErr result (IsLineCause (S.faults self.old.source.now) (S.faults self.new.source.now) (K.faults self.old.sink.now) (K.faults self.new.sink.now)
            (self.new.reader.now.read == 67108864)) }
    {
        loop {
            match self.take_line(alloc)? {
                Answer::Line(line) => return Ok(Some(line)),
                Answer::Long => {}
                Answer::Over => {
                    self.sheet = Sheet::Full;
                    return Ok(None);
                }
            }
        }
    }
}

impl<'s, 'k, 'r, S: Source, K: Sink> Lines for Desk<'s, 'k, 'r, S, K> {
    ghost use Rattle.std.specs.Prelude.{◌≡◌, ◌==◌};
    ghost use Rattle.hpx_process.specs.Deeds.{HasBroken, HasTalked, sitting};

    ghost reads = { λ d. S.faults d.source.now };

    ghost writes = { λ d. K.faults d.sink.now };

    ghost full = { λ d. d.reader.now.read == 67108864 };

    ghost went = { λ first now talk. (now.source.ghost_name ≡ first.source.ghost_name) × (now.sink.ghost_name ≡ first.sink.ghost_name)
        × HasTalked (sitting first.sheet first.reader.now (S.left first.source.now) (S.taken first.source.now) (K.held first.sink.now))
        (sitting now.sheet now.reader.now (S.left now.source.now) (S.taken now.source.now) (K.held now.sink.now)) talk };

    ghost broke = { λ first now fault talk tried. (now.source.ghost_name ≡ first.source.ghost_name) × (now.sink.ghost_name ≡ first.sink.ghost_name)
        × HasBroken (sitting first.sheet first.reader.now (S.left first.source.now) (S.taken first.source.now) (K.held first.sink.now))
        (sitting now.sheet now.reader.now (S.left now.source.now) (S.taken now.source.now) (K.held now.sink.now)) fault talk tried };

    fn next(&mut self, alloc: Global) -> Result<Option<Text>, LineFault> {
        match self.sheet {
            Sheet::Blank => match self.open(alloc) {
                Ok(line) => Ok(Some(line)),
                Err(fault) => Err(fault),
            },
            Sheet::Open => self.ask(alloc),
            Sheet::Full => Ok(None),
        }
    }

    fn show(&mut self, journal: &Journal, cut: u64) -> Result<(), LineFault> {
        show(journal, cut, self.sink)
    }
}
