//! Journals, judged: the space that a legal one leads to, or the first entry that is not allowed.
ghost use Rattle.std.specs.Prelude.{◌≡◌, ◌≤◌, ◌<◌, ◌↔◌, ◌∷◌, [], ℕ, IsTrue, IfOk, IfErr, OnOk, Some, length, ◌++◌};
ghost use Rattle.std.specs.List.{slice_get};
ghost use Rattle.hpx_value.specs.Profiles.{IsValid};
ghost use Rattle.hpx_journal.specs.Bags.{Covers};
ghost use Rattle.hpx_journal.specs.Entries.{same_frame};
ghost use Rattle.hpx_journal.specs.Local.{boot};
ghost use Rattle.hpx_journal.specs.Roots.{root, roots_of_first, roots};
ghost use Rattle.hpx_journal.specs.Whole.{Space as Plain, MayStand, arrives, road_after, step};
ghost use Rattle.hpx_replay.specs.Spaces.{Shows, Replays, IsFault, rules_of};

use crate::entries::{enter, read};
use crate::space::{Frame, Space};
use hpx_journal::bag::Bag;
use hpx_journal::cargo::one;
use hpx_journal::entry::{Entry, Event, Standing};
use hpx_journal::journal::Journal;
use hpx_journal::local::Local;
use hpx_value::acts::Acts;
use hpx_value::codes::{COMPONENTS, LOCALITIES, PLAIN, SESSION, SHELF, SYMBOLS};
use hpx_value::exact::Exact;
use hpx_value::gid::Gid;
use hpx_value::items::Items;
use hpx_value::memory::OutOfMemory;
use hpx_value::profile::Profile;
use hpx_value::value::{State, Value, Values};
use std::alloc::Global;
use thiserror::Error;

/// Why a journal was not replayed.
#[derive(Clone, Copy, Debug, PartialEq, Eq, Error)]
pub enum ReplayFault {
    /// The entry at this place is the first that is not allowed.
    #[error("entry {at} is not allowed")]
    Illegal { at: u64 },
    #[error("out of memory")]
    OutOfMemory,
}

/// A root of a kind, with these values.
fn root(alloc: Global, k: u32, kind: u32, values: Values) -> Standing
    requires place { k < 64 }
    requires some_kind { 1 ≤ kind }
    requires kind { kind < 16 }
    ensures { result ≡ root k kind values }
{
    Standing {
        object: Gid::new(k, kind, 1),
        state: State {
            drawn: 0,
            values,
            conts: Items::new(alloc),
            ids: Items::new(alloc),
        },
    }
}

/// The roots that the first of n localities has alone.
fn roots_of_first(alloc: Global, n: u32, out: &mut Vec<Standing>) -> Result<(), OutOfMemory>
    ensures { OnOk result (out.new.items ≡ out.old.items ++ roots_of_first n) }
{
    let count = one(alloc, Value::Int(n as i64))?;
    out.push(root(alloc, 0, SESSION, Items::new(alloc)))?;
    out.push(root(alloc, 0, SYMBOLS, Items::new(alloc)))?;
    out.push(root(alloc, 0, LOCALITIES, count))?;
    Ok(())
}

/// What stands at locality k of n at first.
fn roots(alloc: Global, n: u32, k: u32) -> Result<Vec<Standing>, OutOfMemory>
    requires { k < 64 }
    ensures { IfOk result (λ out. out.items ≡ roots n k) }
{
    let mut out = Vec::new(alloc);
    if k == 0 {
        roots_of_first(alloc, n, &mut out)?;
    }
    out.push(root(alloc, k, COMPONENTS, Items::new(alloc)))?;
    out.push(root(alloc, k, SHELF, Items::new(alloc)))?;
    out.push(root(alloc, k, PLAIN, Items::new(alloc)))?;
    Ok(out)
}

/// Locality k of n, at first.
fn boot(alloc: Global, n: u32, k: u32) -> Result<Local, OutOfMemory>
    requires { k < 64 }
    ensures { IfOk result (λ s. s ≡ boot (roots n k) k) }
{
    Ok(Local {
        here: k,
        waiting: Bag::new(alloc),
        fired: Bag::new(alloc),
        done: Bag::new(alloc),
        objects: Bag::from_vec(roots(alloc, n, k)?),
        travels: Bag::new(alloc),
        fresh: Items::new(alloc),
        due: Bag::new(alloc),
        tokens: Bag::new(alloc),
        serial: 0,
        number: 0,
        counts: Bag::new(alloc),
        last: None,
        asked: Bag::new(alloc),
        given: Bag::new(alloc),
        asks_come: Bag::new(alloc),
        asks_gone: Bag::new(alloc),
        refusals: Bag::new(alloc),
        failures: 0,
    })
}

/// A frame is put on the road, or taken from it; `false` where one that is accepted is not there.
fn carry(alloc: Global, road: &mut Bag<Frame>, entry: &Entry) -> Result<bool, OutOfMemory>
    ensures there { IfOk result (λ b. IsTrue b ↔ Covers same_frame road.old (arrives entry.now)) }
    ensures road { IfOk result (λ b. IsTrue b → road.new ≡ road_after road.old entry.now) }
{
    match &entry.event {
        Event::Out { to, bytes } => {
            road.put(Frame::new(*to, bytes.duplicate(alloc)?))?;
            Ok(true)
        }
        Event::In { bytes } => {
            let frame = one(alloc, Frame::new(entry.at, bytes.duplicate(alloc)?))?;
            Ok(road.take_each(frame.as_slice()))
        }
        _ => Ok(true),
    }
}

impl Space {
    /// The roots of n localities, and nothing else.
    fn boot(alloc: Global, n: u32) -> Result<Space, OutOfMemory>
        requires { n ≤ 64 }
        ensures count { IfOk result (λ s. length s.places.items ≡ n) }
        ensures places { IfOk result (λ s. (k : ℕ) → k < n → slice_get s.places.items k ≡ Some (boot (roots n k) k)) }
        ensures road { IfOk result (λ s. s.road ≡ []) }
    {
        let mut places = Vec::new(alloc);
        for k in 0..n {
            places.push(boot(alloc, n, k)?)?;
        }
        Ok(Space {
            places,
            road: Bag::new(alloc),
        })
    }

    /// The entry is written, if it is allowed; `false` where it is not, and then what is left has no meaning.
    fn enter<A: Acts>(
        &mut self,
        alloc: Global,
        acts: &A,
        profile: &Profile,
        entry: &Entry,
    ) -> Result<bool, OutOfMemory>
        requires valid { IsValid profile.now }
        requires count { length self.old.places.items ≡ A.count acts.now }
        ensures allowed { IfOk result (λ b. (w : Plain) → Shows (rules_of (A.count acts.now) profile.now A.act_of) self.old w
            → IsTrue b ↔ MayStand (rules_of (A.count acts.now) profile.now A.act_of) w entry.now) }
        ensures after { IfOk result (λ b. (w : Plain) → Shows (rules_of (A.count acts.now) profile.now A.act_of) self.old w
            → IsTrue b → Shows (rules_of (A.count acts.now) profile.now A.act_of) self.new (step (rules_of (A.count acts.now) profile.now A.act_of) w entry.now)) }
    {
        let n = acts.localities();
        if entry.at >= n || !carry(alloc, &mut self.road, entry)? {
            return Ok(false);
        }
        let place = &mut self.places[entry.at as usize];
        if place.here != entry.at {
            return Ok(false);
        }
        let reading = read(place, alloc, acts, &entry.event)?;
        let allowed = enter(place, alloc, n, profile, &entry.event, reading)?;
        Ok(allowed)
    }
}

/// The space that a journal leads to, where it is legal.
fn judge<A: Acts>(
    alloc: Global,
    acts: &A,
    profile: &Profile,
    journal: &Journal,
) -> Result<Space, ReplayFault>
    requires few { A.count acts.now ≤ 64 }
    requires valid { IsValid profile.now }
    ensures ok { IfOk result (λ s. Replays (rules_of (A.count acts.now) profile.now A.act_of) journal.now.entries s) }
    ensures illegal { IfErr result (λ e. IsFault (rules_of (A.count acts.now) profile.now A.act_of) journal.now.entries e) }
{
    let mut space = match Space::boot(alloc, acts.localities()) {
        Ok(space) => space,
        Err(OutOfMemory) => return Err(ReplayFault::OutOfMemory),
    };
    for (i, entry) in journal.as_slice().iter().enumerate() {
        match space.enter(alloc, acts, profile, entry) {
            Ok(true) => (),
            Ok(false) => return Err(ReplayFault::Illegal { at: i as u64 }),
            Err(OutOfMemory) => return Err(ReplayFault::OutOfMemory),
        }
    }
    Ok(space)
}

/// The space that a journal of n localities leads to, where it is legal; else the first entry that is not allowed.
pub fn replay<A: Acts>(
    alloc: Global,
    acts: &A,
    n: u32,
    profile: Profile,
    journal: &Journal,
) -> Result<Space, ReplayFault>
    requires count { n ≡ A.count acts.now }
    requires some { 1 ≤ n }
    requires few { n ≤ 64 }
    requires valid { IsValid profile }
    ensures ok { IfOk result (λ s. Replays (rules_of n profile A.act_of) journal.now.entries s) }
    ensures illegal { IfErr result (λ e. IsFault (rules_of n profile A.act_of) journal.now.entries e) }
{
    judge(alloc, acts, &profile, journal)
}
