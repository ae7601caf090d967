ghost use Rattle.std.specs.Prelude.{◌≡◌, ◌<◌, ◌≤◌, ◌+◌, ◌/◌, ◌%◌, ◌∷◌, [], length, IfOk};
ghost use Rattle.std.specs.Fmt.{decimal};
ghost use Rattle.hpx_counters.specs.Counters.{head_of, tail_of, name_of, counts_event, counts_entry, value_text};

use arrayvec::ArrayString;
use hpx_journal::entry::{Entry, Event};
use hpx_value::items::{Items, Text};
use hpx_value::memory::OutOfMemory;
use itoa::Buffer;
use std::alloc::Global;

/// What a counter counts at its locality.
#[derive(Clone, Copy, Debug, Default, PartialEq, Eq)]
pub enum Counted {
    /// Frames that were sent.
    #[default]
    ParcelsSent,
    /// Frames that were accepted.
    ParcelsReceived,
    /// Actions that were committed, or failed for want of credit.
    ActionsDone,
    /// Sends whose target the cache had.
    CacheHits,
    /// Sends whose target the cache had not.
    CacheMisses,
    ObjectsBorn,
    ObjectsFreed,
    /// Objects that arrived.
    ObjectsLanded,
    /// Ids that became two.
    CreditsSplit,
    /// Ids that were given away to ask for more credit.
    CreditsAsked,
}

/// A counter: what is counted, and at which locality, from 0 to 63.
#[derive(Clone, Copy, Debug, Default, PartialEq, Eq)]
pub struct Counter {
    pub what: Counted,
    pub locality: u16,
}

impl Counted {
    /// What stands before the locality in a name.
    pub(crate) fn head(self) -> &'static str
        ensures text { result.now ≡ head_of self }
        ensures short { length result.now ≤ 20 }
    {
        match self {
            Counted::ParcelsSent => "/parcels{locality#",
            Counted::ParcelsReceived => "/parcels{locality#",
            Counted::ActionsDone => "/threads{locality#",
            Counted::CacheHits => "/agas{locality#",
            Counted::CacheMisses => "/agas{locality#",
            Counted::ObjectsBorn => "/objects{locality#",
            Counted::ObjectsFreed => "/objects{locality#",
            Counted::ObjectsLanded => "/objects{locality#",
            Counted::CreditsSplit => "/credits{locality#",
            Counted::CreditsAsked => "/credits{locality#",
        }
    }

    /// What stands behind the locality in a name.
    pub(crate) fn tail(self) -> &'static str
        ensures text { result.now ≡ tail_of self }
        ensures short { length result.now ≤ 30 }
    {
        match self {
            Counted::ParcelsSent => "/total}/count/sent",
            Counted::ParcelsReceived => "/total}/count/received",
            Counted::ActionsDone => "/total}/count/cumulative",
            Counted::CacheHits => "/total}/count/cache/hits",
            Counted::CacheMisses => "/total}/count/cache/misses",
            Counted::ObjectsBorn => "/total}/count/born",
            Counted::ObjectsFreed => "/total}/count/freed",
            Counted::ObjectsLanded => "/total}/count/landed",
            Counted::CreditsSplit => "/total}/count/split",
            Counted::CreditsAsked => "/total}/count/asked",
        }
    }

    /// Whether an event is counted.
    fn counts(self, event: &Event) -> bool
        ensures { result ≡ counts_event self event.now }
    {
        match (self, event) {
            (Counted::ParcelsSent, Event::Out { .. }) => true,
            (Counted::ParcelsReceived, Event::In { .. }) => true,
            (Counted::ActionsDone, Event::Done { .. }) => true,
            (Counted::CacheHits, Event::Looked { object: _, hit }) => *hit,
            (Counted::CacheMisses, Event::Looked { object: _, hit }) => !*hit,
            (Counted::ObjectsBorn, Event::Born { .. }) => true,
            (Counted::ObjectsFreed, Event::Freed { .. }) => true,
            (Counted::ObjectsLanded, Event::Landed { .. }) => true,
            (Counted::CreditsSplit, Event::Split { .. }) => true,
            (Counted::CreditsAsked, Event::Asked { .. }) => true,
            _ => false,
        }
    }
}

impl Counter {
    /// Whether an entry is counted.
    pub(crate) fn counts(&self, entry: &Entry) -> bool
        ensures { result ≡ counts_entry self.now entry.now }
    {
        entry.at == u32::from(self.locality) && self.what.counts(&entry.event)
    }

    /// The counter's name.
    pub fn name(&self, alloc: Global) -> Result<Text, OutOfMemory>
        ensures { IfOk result (λ name. name ≡ name_of self.now) }
    {
        let head = self.what.head();
        let locality = self.locality;
        let tail = self.what.tail();
        let name = format!(in alloc; "{head}{locality}{tail}")?;
        Ok(Items::from_vec(name.into_bytes()))
    }

    /// The line that tells a value of the counter. It takes no memory.
    pub fn line(&self, value: u64) -> ArrayString<96>
        ensures { result.bytes ≡ value_text self.now value }
    {
        let mut line = ArrayString::new();
        line.push_str(self.what.head());
        line.push_str(Buffer::new().format(self.locality));
        line.push_str(self.what.tail());
        line.push_str(",");
        line.push_str(Buffer::new().format(value));
        line.push_str("\n");
        line
    }
}

/// The two digits of a number below 100.
pub(crate) fn both_digits(number: u16) -> [u8; 2]
    requires { number < 100 }
    ensures { result ≡ (48 + number / 10) ∷ (48 + number % 10) ∷ [] }
{
    [b'0' + (number / 10) as u8, b'0' + (number % 10) as u8]
}

/// The digits of a number below 100, of its two: without a zero before them.
pub(crate) fn digits(both: &[u8; 2], number: u16) -> &[u8]
    requires number { number < 100 }
    requires both { both.now ≡ (48 + number / 10) ∷ (48 + number % 10) ∷ [] }
    ensures decimal { result.now ≡ decimal number }
    ensures short { length result.now ≤ 2 }
{
    if number < 10 { &both[1..] } else { &both[..] }
}
