//! The hand of an action: what its outcome leaves due, and the state that it leaves.
ghost use Rattle.std.specs.Prelude.{◌≡◌, ◌+◌, ◌<◌, ◌≤◌, ◌^◌, ◌++◌, ◌∷◌, [], length, map, IfOk, OnOk, option_to_list};
ghost use Rattle.std.specs.List.{slice_index_or};
ghost use Rattle.hpx_value.specs.Values.{refs_in};
ghost use Rattle.hpx_value.specs.Hands.{id_at, hand_ids, hand_slots, hand_slot, own_slot, slot_at, renumbered, addressed, answer, target_id, send_slot, conts_from, sent, state_after, slots_kept};
ghost use Rattle.hpx_value.specs.Riders.{rode_with, rides_with, due_with};
ghost use Rattle.hpx_value.specs.declared.outcome.Due.TheVariants.{Message as MessageDue, Print as PrintDue};

use crate::mentions::{may_ride, rides};
use hpx_value::codes::{SESSION, SET};
use hpx_value::exact::Exact;
use hpx_value::gid::Gid;
use hpx_value::items::{Items, Text};
use hpx_value::memory::OutOfMemory;
use hpx_value::outcome::{Due, Outcome, Reply, SendCont, Sending, Target};
use hpx_value::value::{Act, Cont, Message, State, Value, Values};
use std::alloc::Global;
use std::marker::Model;

/// Where an answer goes: a slot of an object.
#[derive(Clone, Copy)]
pub struct Slot {
    object: Gid,
    number: u32,
}

impl Model for Slot {
    ghost use Rattle.hpx_value.specs.Hands.{Slot};

    ghost Value = { Slot };

    ghost view = { λ a. record { object = a.object; number = a.number } };

    ghost inverse = { λ x. record { object = x.object; number = x.number } };
}

/// The id at a place, or the session's past the end.
pub fn id_at(ids: &[Gid], place: usize) -> Gid
    ensures { result ≡ id_at ids.now place }
{
    match ids.get(place) {
        Some(id) => *id,
        None => Gid::new(0, SESSION, 1),
    }
}

/// The values with their Refs numbered anew from a place on, and the place after them; the ids that they point at go to
/// the end of a list.
fn renumber(
    alloc: Global,
    hand: &[Gid],
    first: u16,
    values: &[Value],
    ids: &mut Vec<Gid>,
) -> Result<(Values, u16), OutOfMemory>
    ensures values { IfOk result (λ out. out.0 ≡ renumbered first values.now) }
    ensures next { IfOk result (λ out. out.1 ≡ length (refs_in values.now) + first) }
    ensures ids { OnOk result (ids.new.items ≡ ids.old.items ++ map (id_at hand.now) (refs_in values.now)) }
{
    let mut next = first;
    let mut out = Vec::new(alloc);
    for value in values {
        match value {
            Value::Ref(place) => {
                ids.push(id_at(hand, *place as usize))?;
                out.push(Value::Ref(next))?;
                next = next.checked_add(1).ok_or(OutOfMemory)?;
            }
            other => out.push(other.duplicate(alloc)?)?,
        }
    }
    Ok((Items::from_vec(out), next))
}

/// A message whose Refs point into the hand, made one that stands alone.
fn addressed(
    alloc: Global,
    hand: &[Gid],
    target: Gid,
    code: u16,
    args: &[Value],
    slot: Option<Slot>,
) -> Result<Message, OutOfMemory>
    ensures { IfOk result (λ m. m ≡ addressed hand.now target code args.now slot) }
{
    let mut ids = Vec::new(alloc);
    ids.push(target)?;
    let (args, place) = renumber(alloc, hand, 1, args, &mut ids)?;
    let cont = match slot {
        Some(slot) => {
            ids.push(slot.object)?;
            Some(Cont {
                place,
                slot: slot.number,
            })
        }
        None => None,
    };
    Ok(Message {
        code,
        args,
        cont,
        ids: Items::from_vec(ids),
    })
}

/// The answer to a slot.
pub fn answer(
    alloc: Global,
    hand: &[Gid],
    slot: Slot,
    value: &Value,
) -> Result<Message, OutOfMemory>
    ensures { IfOk result (λ m. m ≡ answer hand.now slot value.now) }
{
    let mut args = Vec::new(alloc);
    args.push(Value::Int(slot.number as i64))?;
    args.push(value.duplicate(alloc)?)?;
    addressed(alloc, hand, slot.object, SET, args.as_slice(), None)
}

/// Where a continuation among these ids leads.
pub fn slot_at(ids: &[Gid], cont: Cont) -> Slot
    ensures { result ≡ slot_at ids.now cont }
{
    Slot {
        object: id_at(ids, cont.place as usize),
        number: cont.slot,
    }
}

/// Where the continuation of an action leads, if it has one.
pub fn own_slot(action: &Act) -> Option<Slot>
    ensures { own_slot action.now.ids action.now.cont ≡ option_to_list result }
{
    match action.cont {
        Some(cont) => Some(slot_at(action.ids.as_slice(), cont)),
        None => None,
    }
}

fn ids_of(alloc: Global, state: &State, action: &Act, made: &[Gid]) -> Result<Vec<Gid>, OutOfMemory>
    ensures { IfOk result (λ ids. ids.items ≡ hand_ids state.now action.now made.now) }
{
    let mut ids = Vec::from_slice(alloc, state.ids.as_slice())?;
    ids.extend_from_slice(action.ids.as_slice())?;
    ids.extend_from_slice(made)?;
    Ok(ids)
}

fn slots_of(alloc: Global, state: &State, action: &Act) -> Result<Vec<Slot>, OutOfMemory>
    ensures { IfOk result (λ slots. slots.items ≡ hand_slots state.now action.now) }
{
    let mut slots = Vec::new(alloc);
    for cont in state.conts.as_slice() {
        slots.push(slot_at(state.ids.as_slice(), *cont))?;
    }
    if let Some(slot) = own_slot(action) {
        slots.push(slot)?;
    }
    Ok(slots)
}

/// A root's id. A kind or a locality that no id has is answered like want of memory: no lawful outcome names one.
fn root(kind: u32, at: u32) -> Result<Gid, OutOfMemory>
    ensures { IfOk result (λ id. id ≡ target_id [] (Target.Root kind at)) }
{
    if kind == 0 || kind >= 1 << 20 || at == u32::MAX {
        return Err(OutOfMemory);
    }
    Ok(Gid::new(at, kind, 1))
}

/// What an action sees: the state of its object, and the objects that are made, with all ids and continuations.
#[derive(Drop)]
pub struct Hand<'a> {
    state: &'a State,
    action: &'a Act,
    made: &'a [Gid],
    ids: Vec<Gid>,
    slots: Vec<Slot>,
    ghost ids_are: { ids.items ≡ hand_ids state.now action.now made.now },
    ghost slots_are: { slots.items ≡ hand_slots state.now action.now },
}

impl<'a> Hand<'a> {
    /// The hand of an action on an object in this state, where these objects are made.
    pub fn of(
        alloc: Global,
        state: &'a State,
        action: &'a Act,
        made: &'a [Gid],
    ) -> Result<Hand<'a>, OutOfMemory>
        ensures { IfOk result (λ h. (h.state.now ≡ state.now) × (h.action.now ≡ action.now) × (h.made.now ≡ made.now)) }
    {
        Ok(Hand {
            state,
            action,
            made,
            ids: ids_of(alloc, state, action, made)?,
            slots: slots_of(alloc, state, action)?,
        })
    }

    /// The state of the target.
    pub fn state(&self) -> &State
        ensures { result.now ≡ self.now.state.now }
    {
        self.state
    }

    /// The action.
    pub fn action(&self) -> &Act
        ensures { result.now ≡ self.now.action.now }
    {
        self.action
    }

    /// Its ids: the state's, the action's, and those of the objects that are made.
    pub fn ids(&self) -> &[Gid]
        ensures { result.now ≡ hand_ids self.now.state.now self.now.action.now self.now.made.now }
    {
        self.ids.as_slice()
    }

    /// A continuation of the hand, by its number.
    fn slot(&self, number: usize) -> Slot
        ensures { result ≡ hand_slot self.now.state.now self.now.action.now number }
    {
        match self.slots.as_slice().get(number) {
            Some(slot) => *slot,
            None => Slot {
                object: Gid::new(0, SESSION, 1),
                number: 0,
            },
        }
    }

    fn target(&self, target: Target) -> Result<Gid, OutOfMemory>
        ensures { IfOk result (λ id. id ≡ target_id (hand_ids self.now.state.now self.now.action.now self.now.made.now) target) }
    {
        match target {
            Target::Place(place) => Ok(id_at(self.ids.as_slice(), place as usize)),
            Target::Root { kind, at } => root(kind, at),
        }
    }

    fn send_slot(&self, cont: SendCont) -> Option<Slot>
        ensures { result ≡ send_slot self.now.state.now self.now.action.now self.now.made.now cont }
    {
        match cont {
            SendCont::Nothing => None,
            SendCont::Own(number) => Some(self.slot(number as usize)),
            SendCont::Made { make, slot } => {
                let first = self.state.ids.len() + self.action.ids.len();
                Some(Slot {
                    object: id_at(self.ids.as_slice(), first + make as usize),
                    number: slot,
                })
            }
            SendCont::Here { slot } => Some(Slot {
                object: Gid::new(0, SESSION, 1),
                number: slot,
            }),
        }
    }

    /// A send, as a message.
    fn sent(&self, alloc: Global, x: &Sending) -> Result<Message, OutOfMemory>
        ensures { IfOk result (λ m. m ≡ sent self.now.state.now self.now.action.now self.now.made.now x.now) }
    {
        addressed(
            alloc,
            self.ids.as_slice(),
            self.target(x.target)?,
            x.code,
            x.args.as_slice(),
            self.send_slot(x.cont),
        )
    }

    /// A reply, as a message, with its rider where it rides. A state with more ids than a Ref can count is answered like
    /// want of memory: no lawful one has them.
    fn rode(&self, alloc: Global, rides: bool, x: &Reply) -> Result<Message, OutOfMemory>
        ensures { IfOk result (λ m. m ≡ rode_with self.now.state.now self.now.action.now self.now.made.now rides x.now) }
    {
        let slot = self.slot(x.cont as usize);
        let mut args = Vec::new(alloc);
        args.push(Value::Int(slot.number as i64))?;
        args.push(x.value.duplicate(alloc)?)?;
        if rides {
            if self.state.ids.len() > 65535 {
                return Err(OutOfMemory);
            }
            args.push(Value::Ref(self.state.ids.len() as u16))?;
        }
        addressed(
            alloc,
            self.ids.as_slice(),
            slot.object,
            SET,
            args.as_slice(),
            None,
        )
    }

    fn push_sends(
        &self,
        alloc: Global,
        sends: &[Sending],
        due: &mut Vec<Due>,
    ) -> Result<(), OutOfMemory>
        ensures { OnOk result (due.new.items ≡ due.old.items
            ++ map (λ x. MessageDue (sent self.now.state.now self.now.action.now self.now.made.now x)) sends.now) }
    {
        for x in sends {
            due.push(Due::Message(self.sent(alloc, x)?))?;
        }
        Ok(())
    }

    fn push_replies(
        &self,
        alloc: Global,
        may: bool,
        replies: &[Reply],
        due: &mut Vec<Due>,
    ) -> Result<(), OutOfMemory>
        ensures { OnOk result (due.new.items ≡ due.old.items
            ++ map (λ x. MessageDue (rode_with self.now.state.now self.now.action.now self.now.made.now (rides_with self.now.state.now may x) x)) replies.now) }
    {
        for x in replies {
            due.push(Due::Message(self.rode(alloc, rides(self.state, may, x), x)?))?;
        }
        Ok(())
    }

    /// What an outcome leaves to be written, in order. A hand that is longer than any lawful one is answered like want of
    /// memory.
    pub fn due(&self, alloc: Global, outcome: &Outcome) -> Result<Vec<Due>, OutOfMemory>
        ensures { IfOk result (λ due. due.items ≡ due_with self.now.state.now self.now.action.now self.now.made.now outcome.now) }
    {
        let mut due = Vec::new(alloc);
        self.push_sends(alloc, outcome.sends.as_slice(), &mut due)?;
        if self.state.ids.len() > 65536 || self.action.ids.len() > 65536 {
            return Err(OutOfMemory);
        }
        let may = may_ride(alloc, self.state, self.action, outcome)?;
        self.push_replies(alloc, may, outcome.replies.as_slice(), &mut due)?;
        push_prints(alloc, outcome.prints.as_slice(), &mut due)?;
        Ok(due)
    }

    fn push_kept(
        &self,
        kept: &[u32],
        first: u16,
        conts: &mut Vec<Cont>,
        ids: &mut Vec<Gid>,
    ) -> Result<(), OutOfMemory>
        ensures conts { OnOk result (conts.new.items ≡ conts.old.items
            ++ conts_from first (map (hand_slot self.now.state.now self.now.action.now) kept.now)) }
        ensures ids { OnOk result (ids.new.items ≡ ids.old.items
            ++ map (λ x. x.object) (map (hand_slot self.now.state.now self.now.action.now) kept.now)) }
    {
        let mut place = first;
        for number in kept {
            let slot = self.slot(*number as usize);
            conts.push(Cont {
                place,
                slot: slot.number,
            })?;
            ids.push(slot.object)?;
            place = place.checked_add(1).ok_or(OutOfMemory)?;
        }
        Ok(())
    }

    /// The state that an outcome leaves.
    pub fn state_left(&self, alloc: Global, outcome: &Outcome) -> Result<State, OutOfMemory>
        ensures { IfOk result (λ new. new ≡ state_after self.now.state.now self.now.action.now self.now.made.now outcome.now) }
    {
        let state = &outcome.state;
        let mut ids = Vec::new(alloc);
        let mut conts = Vec::new(alloc);
        let (values, place) = renumber(
            alloc,
            self.ids.as_slice(),
            0,
            state.values.as_slice(),
            &mut ids,
        )?;
        self.push_kept(state.conts.as_slice(), place, &mut conts, &mut ids)?;
        Ok(State {
            drawn: state.drawn,
            values,
            conts: Items::from_vec(conts),
            ids: Items::from_vec(ids),
        })
    }
}

fn push_prints(alloc: Global, prints: &[Text], due: &mut Vec<Due>) -> Result<(), OutOfMemory>
    ensures { OnOk result (due.new.items ≡ due.old.items ++ map PrintDue prints.now) }
{
    for text in prints {
        due.push(Due::Print(text.duplicate(alloc)?))?;
    }
    Ok(())
}
