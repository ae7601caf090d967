//! Lines of an input, one at a time, from a source that is read in pieces.
ghost use Rattle.hpx_top.specs.declared.reader.ReadFault.TheVariants.{Failed as NotRead, OutOfMemory as NoMemory};
ghost use Rattle.std.specs.Prelude.{◌≡◌, ◌+◌, ◌<◌, ◌≤◌, true, false, Ok, [], IfOk, OnOk, OnErr, IsErrOf, IfErr, length, take, drop};
ghost use Rattle.std.specs.Str.Lines.{strip_carriage_return};
ghost use Rattle.hpx_ports.specs.Faults.{Rose};
ghost use Rattle.app_console.specs.Lines.{IsPiece, is_long, is_quit};
ghost use Rattle.hpx_top.specs.Reader.{input_left, bytes_left, reads_left, wants_more, WantsMemory, IsFound, IsFull, IsOut, IsNoLine, last_of, next_of, Answers, LeavesFewer, LeavesBehind, HasRead};

mod pending;

use crate::reader::pending::Pending;
use app_console::lines::{is_long, is_quit, line_of};
use hpx_ports::fault::Failed;
use hpx_ports::source::Source;
use hpx_value::items::Text;
use std::alloc::{AllocError, Global};
use std::marker::Model;
use thiserror::Error;

/// How many bytes are read in all, at most.
const LIMIT: usize = 67_108_864;
/// How many bytes one read asks for, at most.
const MOST_AT_ONCE: usize = 4096;

/// The next line, or what comes in place of one.
#[derive(Drop)]
pub enum Next {
    /// A line of at most 1,024 bytes that doesn't end reading.
    Line(Text),
    /// A line that is too long.
    Long,
    /// A line that ends reading.
    Quit,
    /// All lines were handed out.
    End,
    /// No more bytes are read, though there may be some.
    Full,
}

/// Why there is no next line.
#[derive(Clone, Copy, Debug, PartialEq, Eq, Error)]
pub enum ReadFault {
    /// The source did not do what was asked of it.
    #[error("failed")]
    Failed,
    /// There was no memory.
    #[error("out of memory")]
    OutOfMemory,
}

impl From<Failed> for ReadFault {
    ghost from_gives = { λ _ fault. fault ≡ NotRead };

    fn from(_error: Failed) -> ReadFault {
        ReadFault::Failed
    }
}

impl From<AllocError> for ReadFault {
    ghost from_gives = { λ _ fault. fault ≡ NoMemory };

    fn from(_error: AllocError) -> ReadFault {
        ReadFault::OutOfMemory
    }
}

/// What was found among the bytes that are pending.
enum Found {
    /// A newline, behind this many bytes.
    Newline(usize),
    /// The last bytes of the input, this many, which hold no newline.
    Last(usize),
    /// Nothing is pending, and there are no more bytes.
    Over,
    /// No newline, and no more bytes are read.
    AtLimit,
}

/// A reader of lines. It reads 67,108,864 bytes at most.
#[derive(Drop)]
pub struct LineReader {
    pending: Pending,
    read: usize,
    ended: bool,
}

impl Model for LineReader {
    ghost use Rattle.std.specs.Prelude.{◌≤◌};
    ghost use Rattle.hpx_top.specs.Reader.{Reading};

    ghost Value = { Reading };

    ghost view = { λ r. record { pending = r.pending; read = r.read; ended = r.ended } };

    ghost invariant = { λ r. r.read ≤ 67108864 };
}

impl LineReader {
    /// Nothing was read, which takes no memory.
    pub fn new(alloc: Global) -> LineReader
        ensures { result ≡ record { pending = []; read = 0; ended = false } }
    {
        LineReader {
            pending: Pending::new(alloc),
            read: 0,
            ended: false,
        }
    }

    /// Reads some bytes, or meets the end.
    fn read_more<S: Source>(&mut self, source: &mut S) -> Result<(), ReadFault>
        requires room { self.old.read < 67108864 }
        requires goes_on { self.old.ended ≡ false }
        ensures input { input_left self.new (S.left source.new) ≡ input_left self.old (S.left source.old) }
        ensures reads { (all : _) → HasRead all self.old (S.left source.old) → HasRead all self.new (S.left source.new) }
        ensures counted { self.new.read + S.taken source.old ≡ self.old.read + S.taken source.new }
        ensures limit { self.new.read ≤ 67108864 }
        ensures fewer { OnOk result (reads_left self.new < reads_left self.old) }
        ensures err { OnErr result (self.new ≡ self.old) }
        ensures kept { bytes_left self.new ≡ bytes_left self.old }
        ensures cause { IsErrOf result ReadFault.Failed → Rose (S.faults source.old) (S.faults source.new) }
        ensures stands { (IsErrOf result ReadFault.Failed → ⊥) → S.faults source.new ≡ S.faults source.old }
    {
        let count = self
            .pending
            .read_from(source, MOST_AT_ONCE.min(LIMIT - self.read))?;
        self.read += count;
        self.ended = count == 0;
        Ok(())
    }

    /// Reads on until a whole line is pending, or no more is read.
    fn find_line<S: Source>(&mut self, source: &mut S) -> Result<Found, ReadFault>
        ensures found { IfOk result (λ found. IsFound found self.new) }
        ensures input { input_left self.new (S.left source.new) ≡ input_left self.old (S.left source.old) }
        ensures reads { (all : _) → HasRead all self.old (S.left source.old) → HasRead all self.new (S.left source.new) }
        ensures counted { self.new.read + S.taken source.old ≡ self.old.read + S.taken source.new }
        ensures limit { self.new.read ≤ 67108864 }
        ensures kept { bytes_left self.new ≡ bytes_left self.old }
        ensures full { self.old.read ≡ 67108864 → self.old.ended ≡ false → IsPiece self.old.pending → result ≡ Ok Found.AtLimit }
        ensures no_line { IsErrOf result ReadFault.Failed → IsPiece self.new.pending }
        ensures goes_on { IsErrOf result ReadFault.Failed → self.new.ended ≡ false }
        ensures memory { IsErrOf result ReadFault.OutOfMemory → self.new.read < 67108864 }
        ensures lacks { IsErrOf result ReadFault.OutOfMemory → wants_more self.new ≡ true }
        ensures same { wants_more self.old ≡ false → self.new ≡ self.old }
        ensures still { wants_more self.old ≡ false → source.new ≡ source.old }
        ensures cause { IsErrOf result ReadFault.Failed → Rose (S.faults source.old) (S.faults source.new) }
        ensures stands { (IsErrOf result ReadFault.Failed → ⊥) → S.faults source.new ≡ S.faults source.old }
    {
        loop {
            if let Some(n) = self.pending.first_newline() {
                return Ok(Found::Newline(n));
            }
            if self.ended {
                return Ok(last_of(self.pending.as_slice().len()));
            }
            if self.read == LIMIT {
                return Ok(Found::AtLimit);
            }
            self.read_more(source)?;
        }
    }

    /// Hands out the first `len` bytes that are pending as a line, and lets go of `count` bytes.
    fn hand_out(&mut self, alloc: Global, len: usize, count: usize) -> Result<Next, ReadFault>
        requires within { len ≤ count }
        requires all { count ≤ length self.old.pending }
        ensures line { IfOk result (λ next. next ≡ next_of (strip_carriage_return (take len self.old.pending))) }
        ensures ok { OnOk result (self.new ≡ record self.old { pending = drop count self.old.pending }) }
        ensures err { OnErr result (self.new ≡ self.old) }
        ensures cause { IfErr result (λ fault. fault ≡ ReadFault.OutOfMemory) }
        ensures lacks { let line = strip_carriage_return (take len self.old.pending) in OnErr result ((is_long line ≡ false) × (is_quit line ≡ false)) }
    {
        let next = next_for(alloc, line_of(&self.pending.as_slice()[..len]))?;
        self.pending.skip(count);
        Ok(next)
    }

    /// The next line. After an error the same line is still the next.
    pub fn next_line<S: Source>(&mut self, alloc: Global, source: &mut S) -> Result<Next, ReadFault>
        ensures ok { IfOk result (λ next. Answers next self.old self.new (S.left source.old) (S.left source.new)) }
        ensures err { OnErr result (input_left self.new (S.left source.new) ≡ input_left self.old (S.left source.old)) }
        ensures fewer { IfOk result (λ next. LeavesFewer next self.old self.new) }
        ensures behind { IfOk result (λ next. LeavesBehind next (input_left self.old (S.left source.old)) (input_left self.new (S.left source.new))) }
        ensures full { self.old.read ≡ 67108864 → self.old.ended ≡ false → IsPiece self.old.pending → result ≡ Ok Next.Full }
        ensures no_line { IsErrOf result ReadFault.Failed → IsPiece self.new.pending }
        ensures goes_on { IsErrOf result ReadFault.Failed → self.new.ended ≡ false }
        ensures out { IsOut self.new (input_left self.old (S.left source.old)) (S.left source.new) → IsNoLine result }
        ensures memory { IsErrOf result ReadFault.OutOfMemory → IsFull self.new → ⊥ }
        ensures lacks { IsErrOf result ReadFault.OutOfMemory → WantsMemory self.new }
        ensures same { wants_more self.old ≡ false → OnErr result (self.new ≡ self.old) }
        ensures still { wants_more self.old ≡ false → source.new ≡ source.old }
        ensures reads { (all : _) → HasRead all self.old (S.left source.old) → HasRead all self.new (S.left source.new) }
        ensures counted { self.new.read + S.taken source.old ≡ self.old.read + S.taken source.new }
        ensures limit { self.new.read ≤ 67108864 }
        ensures cause { IsErrOf result ReadFault.Failed → Rose (S.faults source.old) (S.faults source.new) }
        ensures stands { (IsErrOf result ReadFault.Failed → ⊥) → S.faults source.new ≡ S.faults source.old }
    {
        match self.find_line(source)? {
            Found::Newline(n) => self.hand_out(alloc, n, n + 1),
            Found::Last(n) => self.hand_out(alloc, n, n),
            Found::Over => Ok(Next::End),
            Found::AtLimit => Ok(Next::Full),
        }
    }
}

/// How a line is handed out.
fn next_for(alloc: Global, line: &[u8]) -> Result<Next, AllocError>
    ensures ok { IfOk result (λ next. next ≡ next_of line.now) }
    ensures err { OnErr result ((is_long line.now ≡ false) × (is_quit line.now ≡ false)) }
{
    if is_long(line) {
        return Ok(Next::Long);
    }
    if is_quit(line) {
        return Ok(Next::Quit);
    }
    Ok(Next::Line(Text::from_vec(Vec::from_slice(alloc, line)?)))
}

/// What is found where no newline and no more bytes are.
fn last_of(count: usize) -> Found
    ensures { result ≡ last_of count }
{
    if count == 0 {
        Found::Over
    } else {
        Found::Last(count)
    }
}
