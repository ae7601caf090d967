//! What is printed for them. It takes no memory.
ghost use Rattle.std.specs.Prelude.{◌≡◌, []};
ghost use Rattle.hpx_own.specs.Texts.{refusal_text, line_text, audit_text, counted_text};

use crate::lines::Refusal;
use arrayvec::ArrayString;
use hpx_counters::counter::Counter;
use hpx_counters::counters::value;
use hpx_journal::journal::Journal;
use hpx_world::audit::AuditLine;
use itoa::Buffer;

impl Refusal {
    /// What is printed for it.
    pub fn text(self) -> &'static [u8]
        ensures { result.now ≡ refusal_text self }
    {
        match self {
            Refusal::BadNumber => b"error: bad number\n",
            Refusal::BadCounter => b"error: bad counter\n",
        }
    }
}

/// What is printed for an audit without a line.
pub fn no_objects() -> &'static [u8]
    ensures { result.now ≡ audit_text [] }
{
    b"no objects\n"
}

/// What is printed for a line of an audit.
pub fn audit_line(line: &AuditLine) -> ArrayString<192>
    ensures { result.bytes ≡ line_text line.now }
{
    let mut text = ArrayString::new();
    text.push_str(Buffer::new().format(line.gid.home()));
    text.push_str(".");
    text.push_str(Buffer::new().format(line.gid.number()));
    text.push_str(" recorded ");
    text.push_str(Buffer::new().format(line.recorded));
    text.push_str(" held ");
    text.push_str(Buffer::new().format(line.held));
    text.push_str(" flight ");
    text.push_str(Buffer::new().format(line.flight));
    text.push_str(" at ");
    text.push_str(Buffer::new().format(line.at));
    text.push_str("\n");
    text
}

/// What is printed for a counter: how many entries of a journal it counts.
pub fn counted(counter: &Counter, journal: &Journal) -> ArrayString<32>
    ensures { result.bytes ≡ counted_text counter.now journal.now.entries }
{
    let mut text = ArrayString::new();
    text.push_str(Buffer::new().format(value(counter, journal)));
    text.push_str("\n");
    text
}
