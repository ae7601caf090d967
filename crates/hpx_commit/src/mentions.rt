//! What an outcome names of its hand.
ghost use Rattle.std.specs.Prelude.{◌≡◌, ◌+◌, ◌<◌, ◌≤◌, ◌^◌, ◌++◌, ◌==◌, length, map, flat_map, IfOk, OnOk};
ghost use Rattle.std.specs.List.{slice_index_or, list_any};
ghost use Rattle.hpx_value.specs.Values.{refs_in};
ghost use Rattle.hpx_value.specs.Mentions.{cont_places, state_mentions, send_mentions, reply_mentions, mentions};
ghost use Rattle.hpx_value.specs.Riders.{names_target, may_ride, rides_with, rider_places, rode_mentions, mentions_with};

use hpx_value::codes::{FIRST_MANAGED, MOVE};
use hpx_value::items::{Items, Numbers};
use hpx_value::memory::OutOfMemory;
use hpx_value::outcome::{NewState, Outcome, Reply, SendCont, Sending, Target};
use hpx_value::value::{Act, State, Value};
use std::alloc::Global;

/// The places that the Refs of values point at, after those that are there.
fn push_refs(values: &[Value], places: &mut Vec<u32>) -> Result<(), OutOfMemory>
    ensures { OnOk result (places.new.items ≡ places.old.items ++ refs_in values.now) }
{
    for value in values {
        if let Value::Ref(place) = value {
            places.push(*place as u32)?;
        }
    }
    Ok(())
}

/// Where the continuations of the hand lead.
fn cont_places(alloc: Global, state: &State, action: &Act) -> Result<Vec<u32>, OutOfMemory>
    requires few { length state.now.ids ≤ 65536 }
    ensures { IfOk result (λ places. places.items ≡ cont_places state.now action.now) }
{
    let mut places = Vec::new(alloc);
    for cont in state.conts.as_slice() {
        places.push(cont.place as u32)?;
    }
    if let Some(cont) = action.cont {
        places.push(state.ids.len() as u32 + cont.place as u32)?;
    }
    Ok(places)
}

/// Where the continuation under a number leads.
fn cont_place(places: &[u32], number: usize) -> u32
    ensures { result ≡ slice_index_or places.now number 0 }
{
    match places.get(number) {
        Some(place) => *place,
        None => 0,
    }
}

/// What a hand is asked for: where its continuations lead, and the place of the first object that is made.
#[derive(Drop)]
struct Sites {
    conts: Vec<u32>,
    made: u32,
}

impl Sites {
    fn push_state(&self, new: &NewState, places: &mut Vec<u32>) -> Result<(), OutOfMemory>
        ensures { OnOk result ((s : _) (a : _) → self.now.conts.items ≡ cont_places s a → places.new.items ≡ places.old.items ++ state_mentions s a new.now) }
    {
        push_refs(new.values.as_slice(), places)?;
        for number in new.conts.as_slice() {
            places.push(cont_place(self.conts.as_slice(), *number as usize))?;
        }
        Ok(())
    }

    fn push_send(&self, x: &Sending, places: &mut Vec<u32>) -> Result<(), OutOfMemory>
        requires few { self.now.made ≤ 131072 }
        ensures { OnOk result ((s : _) (a : _) → self.now.conts.items ≡ cont_places s a → self.now.made ≡ length s.ids + length a.ids → places.new.items ≡ places.old.items ++ send_mentions s a x.now) }
    {
        if let Target::Place(place) = x.target {
            places.push(place as u32)?;
        }
        push_refs(x.args.as_slice(), places)?;
        match x.cont {
            SendCont::Own(number) => {
                places.push(cont_place(self.conts.as_slice(), number as usize))?
            }
            SendCont::Made { make, slot: _ } => places.push(self.made + make as u32)?,
            SendCont::Nothing => (),
            SendCont::Here { slot: _ } => (),
        }
        Ok(())
    }

    fn push_reply(&self, x: &Reply, places: &mut Vec<u32>) -> Result<(), OutOfMemory>
        ensures { OnOk result ((s : _) (a : _) → self.now.conts.items ≡ cont_places s a → places.new.items ≡ places.old.items ++ reply_mentions s a x.now) }
    {
        places.push(cont_place(self.conts.as_slice(), x.cont as usize))?;
        if let Value::Ref(place) = x.value {
            places.push(place as u32)?;
        }
        Ok(())
    }

    fn push_sends(&self, sends: &[Sending], places: &mut Vec<u32>) -> Result<(), OutOfMemory>
        requires few { self.now.made ≤ 131072 }
        ensures { OnOk result ((s : _) (a : _) → self.now.conts.items ≡ cont_places s a → self.now.made ≡ length s.ids + length a.ids → places.new.items ≡ places.old.items ++ flat_map (send_mentions s a) sends.now) }
    {
        for x in sends {
            self.push_send(x, places)?;
        }
        Ok(())
    }

    fn push_replies(&self, replies: &[Reply], places: &mut Vec<u32>) -> Result<(), OutOfMemory>
        ensures { OnOk result ((s : _) (a : _) → self.now.conts.items ≡ cont_places s a → places.new.items ≡ places.old.items ++ flat_map (reply_mentions s a) replies.now) }
    {
        for x in replies {
            self.push_reply(x, places)?;
        }
        Ok(())
    }
}

/// Whether one of these places is this one.
fn has_place(places: &[u32], place: u32) -> bool
    ensures { result ≡ list_any (λ p. p == place) places.now }
{
    places.iter().any(|p| *p == place)
}

/// Whether an answer to the action's own continuation rides.
pub(crate) fn may_ride(
    alloc: Global,
    state: &State,
    action: &Act,
    outcome: &Outcome,
) -> Result<bool, OutOfMemory>
    requires state { length state.now.ids ≤ 65536 }
    requires action { length action.now.ids ≤ 65536 }
    ensures { IfOk result (λ b. b ≡ may_ride action.now (names_target state.now action.now outcome.now)) }
{
    let managed = match action.ids.as_slice().first() {
        Some(id) => id.kind() >= FIRST_MANAGED,
        None => false,
    };
    if action.cont.is_none() || action.code == MOVE || !managed {
        return Ok(false);
    }
    let places = mentions(alloc, state, action, outcome)?;
    Ok(!has_place(places.as_slice(), state.ids.len() as u32))
}

/// Whether a reply rides.
pub(crate) fn rides(state: &State, may: bool, x: &Reply) -> bool
    ensures { result ≡ rides_with state.now may x.now }
{
    may && x.cont as usize == state.conts.len()
}

/// What the replies name, with their riders.
fn push_rode(
    sites: &Sites,
    state: &State,
    may: bool,
    replies: &[Reply],
    places: &mut Vec<u32>,
) -> Result<(), OutOfMemory>
    requires few { length state.now.ids ≤ 65536 }
    ensures { OnOk result ((s : _) (a : _) → sites.now.conts.items ≡ cont_places s a → places.new.items ≡ places.old.items
        ++ flat_map (λ x. reply_mentions s a x ++ rider_places (rides_with state.now may x) (length state.now.ids)) replies.now) }
{
    for x in replies {
        sites.push_reply(x, places)?;
        if rides(state, may, x) {
            places.push(state.ids.len() as u32)?;
        }
    }
    Ok(())
}

/// The places of the hand that an outcome names with its riders, in the order in which a commit takes them.
pub fn mentions_with(
    alloc: Global,
    state: &State,
    action: &Act,
    outcome: &Outcome,
) -> Result<Numbers, OutOfMemory>
    requires state { length state.now.ids ≤ 65536 }
    requires action { length action.now.ids ≤ 65536 }
    ensures { IfOk result (λ places. places ≡ mentions_with state.now action.now outcome.now) }
{
    let may = may_ride(alloc, state, action, outcome)?;
    let sites = Sites {
        conts: cont_places(alloc, state, action)?,
        made: (state.ids.len() + action.ids.len()) as u32,
    };
    let mut places = Vec::new(alloc);
    sites.push_state(&outcome.state, &mut places)?;
    sites.push_sends(outcome.sends.as_slice(), &mut places)?;
    push_rode(&sites, state, may, outcome.replies.as_slice(), &mut places)?;
    Ok(Items::from_vec(places))
}

/// The places of the hand that an outcome names, in the order in which a commit takes them: the new state's, each send's,
/// and each reply's.
pub fn mentions(
    alloc: Global,
    state: &State,
    action: &Act,
    outcome: &Outcome,
) -> Result<Numbers, OutOfMemory>
    requires state { length state.now.ids ≤ 65536 }
    requires action { length action.now.ids ≤ 65536 }
    ensures { IfOk result (λ places. places ≡ mentions state.now action.now outcome.now) }
{
    let sites = Sites {
        conts: cont_places(alloc, state, action)?,
        made: (state.ids.len() + action.ids.len()) as u32,
    };
    let mut places = Vec::new(alloc);
    sites.push_state(&outcome.state, &mut places)?;
    sites.push_sends(outcome.sends.as_slice(), &mut places)?;
    sites.push_replies(outcome.replies.as_slice(), &mut places)?;
    Ok(Items::from_vec(places))
}
