//! What stands at boot, what is made, what is found and counted, what is far, and what is written of a hand.
ghost use Rattle.std.specs.Prelude.{◌≡◌, ◌≤◌, IfOk};
ghost use Rattle.hpx_value.specs.Ids.{bare_id};
ghost use Rattle.hpx_parcel.specs.Parcels.{IsParcel};

use hpx_journal::entry::{Event, Name};
use hpx_journal::journal::Journal;
use hpx_parcel::parcel::Parcel;
use hpx_parcel::read::decode;
use hpx_tables::births::births;
use hpx_tables::boot::roots;
use hpx_tables::credit::{
    credit_in, held_in_letters, held_in_parcel, held_in_states, owed_in_parcel,
};
use hpx_tables::find::{answered_by, first_free, target};
use hpx_tables::kept::{Fit, Kept, Letter, bare_state, named};
use hpx_tables::objects::Objects;
use hpx_tables::pending::Pending;
use hpx_tables::queue::Queue;
use hpx_tables::splits::{push_asks, push_first_splits};
use hpx_tables::strange::{is_far, object_of};
use hpx_trial::trial::Trial;
use hpx_value::gid::Gid;
use hpx_value::items::Items;
use hpx_value::outcome::Make;
use hpx_value::value::{Act, Message, State, Value};
use std::alloc::Global;
use std::process::Abort;
use std::test::Fail;

/// The number: the first object that is made at locality 1.
fn number() -> Gid {
    Gid::new(1, 16, 1)
}

/// What stands somewhere: the kind of each, and its values.
fn shown(objects: &Objects, kinds: &[u32]) -> bool {
    if objects.len() != kinds.len() {
        return false;
    }
    for i in 0..objects.len() {
        let object = objects.at(i).object();
        if object.kind() != kinds[i] || object.number() != 1 {
            return false;
        }
    }
    true
}

#[test]
fn the_roots_stand_at_boot(rt: HostRuntime) -> Result<(), Fail> {
    let alloc = rt.alloc();
    let first = roots(alloc, 3, 0)?;
    assert!(rt; shown(&first, &[1, 2, 4, 3, 5, 7]));
    assert!(rt;
        matches!(
            first.at(2).state().values.as_slice().first(),
            Some(Value::Int(3))
        )
    );
    let last = roots(alloc, 3, 2)?;
    assert!(rt; shown(&last, &[3, 5, 7]));
    assert!(rt; last.at(0).object().home() == 2);
    Ok(())
}

#[test]
fn what_is_made_keeps_its_values(rt: HostRuntime) -> Result<(), Fail> {
    let alloc = rt.alloc();
    let mut values = Items::new(alloc);
    values.push(Value::Int(5))?;
    let makes = [Make { kind: 16, values }];
    let mut made = births(alloc, &makes)?;
    assert!(rt; made.len() == 1);
    if let Some(birth) = made.pop_front() {
        assert!(rt; birth.kind == 16 && birth.state.ids.is_empty());
        assert!(rt; matches!(birth.state.values.as_slice().first(), Some(Value::Int(5))));
        assert!(rt; matches!(birth.entry.values.as_slice().first(), Some(Value::Int(5))));
    }
    Ok(())
}

#[test]
fn a_state_loses_its_credits(rt: HostRuntime) -> Result<(), Fail> {
    let alloc = rt.alloc();
    let mut ids = Items::new(alloc);
    ids.push(number().with_log(8))?;
    let mut values = Items::new(alloc);
    values.push(Value::Ref(0))?;
    let conts = Items::new(alloc);
    let state = State {
        drawn: 7,
        values,
        conts,
        ids,
    };
    let bare = bare_state(alloc, &state)?;
    assert!(rt; bare.drawn == 7 && bare.ids.as_slice() == [number()].as_slice());
    Ok(())
}

/// The message in a frame.
fn parcel(alloc: Global, frame: &[u8]) -> Result<Parcel, Fail>
    ensures { IfOk result IsParcel }
{
    Ok(decode(alloc, frame)?)
}

/// `ADD 5` for the number with log 7, from locality 0, answered at slot 1 of the component namespace there.
const ADD: &[u8] = &[
    1, 1, 0, 0, 0, 0, 0, 0, 0, 0, 0, 4, 0, 0, 0, 2, 0x47, 0, 0, 0x21, 0, 0, 0, 0, 0, 0, 0, 1, 0,
    0x10, 0, 1, 2, 0, 0, 0, 0, 0, 0, 0, 5, 1, 0, 0, 0, 1, 0, 0, 0, 3, 0, 0, 0, 0, 0, 0, 0, 1, 0, 0,
    0, 1,
];

/// A Return of the number with log 7.
const RETURN: &[u8] = &[1, 2, 0, 0, 0, 2, 0x47, 0, 0, 0x21, 0, 0, 0, 0, 0, 0, 0, 1];

/// A Give of the number with log 8, under number 0.
const GIVE: &[u8] = &[
    1, 4, 0, 0, 0, 2, 0x48, 0, 0, 0x21, 0, 0, 0, 0, 0, 0, 0, 1, 0, 0, 0, 0, 0, 0, 0, 0,
];

/// A Free of the number.
const FREE: &[u8] = &[1, 10, 0, 0, 0, 2, 0, 0, 0, 0x21, 0, 0, 0, 0, 0, 0, 0, 1];

/// Whether credit of the number is held, and owed, by a message.
fn counts(alloc: Global, frame: &[u8], held: u128, owed: u128) -> Result<bool, Fail> {
    let parcel = parcel(alloc, frame)?;
    Ok(held_in_parcel(&parcel, number()) == held && owed_in_parcel(&parcel, number()) == owed)
}

#[test]
fn credit_is_held_by_actions_and_owed_by_answers(rt: HostRuntime) -> Result<(), Fail> {
    let alloc = rt.alloc();
    let ids = [
        number().with_log(8),
        Gid::new(0, 16, 1).with_log(6),
        number().with_log(7),
        number(),
    ];
    assert!(rt; credit_in(&ids, number()) == 384);
    assert!(rt; counts(alloc, ADD, 128, 0)?);
    assert!(rt; counts(alloc, RETURN, 0, 128)?);
    assert!(rt; counts(alloc, GIVE, 0, 256)?);
    assert!(rt; counts(alloc, FREE, 0, 0)?);
    Ok(())
}

#[test]
fn the_credit_in_a_queue_is_counted_as_messages_come_and_go(rt: HostRuntime) -> Result<(), Fail> {
    let alloc = rt.alloc();
    let mut desk = Queue::new(alloc);
    let steps = [
        (Some(RETURN), 0),
        (Some(ADD), 128),
        (Some(ADD), 256),
        (None, 256),
        (None, 128),
        (Some(GIVE), 128),
        (None, 0),
        (None, 0),
        (Some(ADD), 128),
    ];
    for (frame, held) in steps {
        match frame {
            Some(frame) => {
                desk.reserve(1)?;
                desk.push_back_reserved(Letter::new(parcel(alloc, frame)?));
            }
            None => {
                let _ = desk.pop_front();
            }
        }
        assert!(rt; held_in_letters(&desk, number()) == held);
        assert!(rt; desk.lacks(number()) == (held == 0));
    }
    Ok(())
}

/// An object whose state names the number, with credit of a log.
fn naming(alloc: Global, log: u8) -> Result<Kept, Fail>
    requires { log ≤ 31 }
    ensures { IfOk result (λ x. x.object ≡ bare_id 1 16 2) }
{
    let mut values = Items::new(alloc);
    values.push(Value::Ref(0))?;
    let mut ids = Items::new(alloc);
    ids.push(number().with_log(log))?;
    let state = State {
        drawn: 0,
        values,
        conts: Items::new(alloc),
        ids,
    };
    Ok(Kept::new(Gid::new(1, 16, 2), state))
}

/// How much credit of the number states hold, and whether it is known at once that they hold none.
fn credit_of_number(objects: &Objects) -> (u128, bool) {
    (held_in_states(objects, number()), objects.lacks(number()))
}

/// Takes the first object out, if there is one.
fn take_first(objects: &mut Objects) {
    if objects.len() > 0 {
        let _ = objects.take(0);
    }
}

#[test]
fn the_credit_in_states_is_counted_as_these_change(rt: HostRuntime) -> Result<(), Fail> {
    let alloc = rt.alloc();
    let mut objects = Objects::new(alloc);
    assert!(rt; credit_of_number(&objects) == (0, true));
    objects.push(naming(alloc, 7)?)?;
    assert!(rt; credit_of_number(&objects) == (128, false));
    objects.merge(0, number(), 7);
    assert!(rt; credit_of_number(&objects) == (256, false));
    take_first(&mut objects);
    assert!(rt; credit_of_number(&objects) == (0, true));
    Ok(())
}

#[test]
fn a_message_for_locality_1_is_far_from_one_alone(rt: HostRuntime) -> Result<(), Fail> {
    let alloc = rt.alloc();
    for frame in [ADD, RETURN, GIVE, FREE] {
        let parcel = parcel(alloc, frame)?;
        assert!(rt; is_far(1, &parcel) && !is_far(2, &parcel));
        assert!(rt; object_of(&parcel) == number());
    }
    Ok(())
}

/// An answer to the session.
fn answer(alloc: Global) -> Result<Act, Fail> {
    let mut ids = Items::new(alloc);
    ids.push(Gid::new(0, 1, 1))?;
    let args = Items::new(alloc);
    let message = Message {
        code: 3,
        args,
        cont: None,
        ids,
    };
    let name = Name {
        origin: 1,
        serial: 9,
    };
    Ok(named(name, message))
}

#[test]
fn a_set_answers_the_session(rt: HostRuntime) -> Result<(), Fail> {
    let alloc = rt.alloc();
    let act = answer(alloc)?;
    assert!(rt; act.origin == 1 && act.serial == 9);
    assert!(rt; answered_by(&act) == 1);
    if let Parcel::Apply(add) = parcel(alloc, ADD)? {
        assert!(rt; answered_by(&add) == 0 && target(&add) == number().with_log(7));
    }
    Ok(())
}

/// Where an add for the number is free, where these stand and none waits; the number stands at 1.
fn found(
    alloc: Global,
    running: &[Fit],
    objects: &Objects,
) -> Result<Option<(usize, usize)>, Fail> {
    let mut accepted = Queue::new(alloc);
    if let Parcel::Apply(add) = parcel(alloc, ADD)? {
        accepted.reserve(1)?;
        accepted.push_back_reserved(Fit::new(add));
    }
    let pending: Vec<Pending<Trial>> = Vec::new(alloc);
    Ok(first_free(&accepted, running, pending.as_slice(), objects))
}

#[test]
fn an_action_is_free_where_its_object_stands_and_none_runs_on_it(
    rt: HostRuntime,
) -> Result<(), Fail> {
    let alloc = rt.alloc();
    let mut objects = roots(alloc, 2, 1)?;
    assert!(rt; found(alloc, &[], &objects)? == None);
    let state = State {
        drawn: 0,
        values: Items::new(alloc),
        conts: Items::new(alloc),
        ids: Items::new(alloc),
    };
    objects.push(Kept::new(Gid::new(1, 16, 1), state))?;
    assert!(rt; found(alloc, &[], &objects)? == Some((0, 3)));
    if let Parcel::Apply(add) = parcel(alloc, ADD)? {
        assert!(rt; found(alloc, &[Fit::new(add)], &objects)? == None);
    }
    Ok(())
}

/// The logs of three ids in a state.
fn logs(kept: &Kept) -> (Option<u8>, Option<u8>, Option<u8>) {
    match kept.state().ids.as_slice() {
        [one, two, three] => (one.log(), two.log(), three.log()),
        _ => (None, None, None),
    }
}

#[test]
fn a_rider_is_merged_into_the_first_id_that_is_like_it(rt: HostRuntime) -> Result<(), Fail> {
    let alloc = rt.alloc();
    let other = Gid::new(1, 16, 2);
    let mut values = Items::new(alloc);
    values.push(Value::Ref(0))?;
    values.push(Value::Ref(1))?;
    values.push(Value::Ref(2))?;
    let mut ids = Items::new(alloc);
    ids.push(other.with_log(7))?;
    ids.push(number().with_log(6))?;
    ids.push(number().with_log(7))?;
    let conts = Items::new(alloc);
    let state = State {
        drawn: 0,
        values,
        conts,
        ids,
    };
    let mut kept = Kept::new(Gid::new(0, 1, 1), state);
    assert!(rt; kept.has_like(number(), 7));
    assert!(rt; !kept.has_like(number(), 5));
    assert!(rt; !kept.has_like(Gid::new(1, 16, 3), 7));
    kept.merge(number(), 7);
    assert!(rt; logs(&kept) == (Some(7), Some(6), Some(8)));
    kept.merge(number(), 6);
    assert!(rt; logs(&kept) == (Some(7), Some(7), Some(8)));
    kept.merge(other, 5);
    assert!(rt; logs(&kept) == (Some(7), Some(7), Some(8)));
    Ok(())
}

/// What was written, in short: a split of a log, or an ask.
fn written(book: &Journal) -> (Option<u8>, Option<u8>, bool) {
    match book.as_slice() {
        [one, two, three] => (
            split(&one.event),
            split(&two.event),
            matches!(three.event, Event::Asked { object: _ }),
        ),
        _ => (None, None, false),
    }
}

fn split(event: &Event) -> Option<u8> {
    match event {
        Event::Split { object: _, log } => Some(*log),
        _ => None,
    }
}

#[test]
fn an_id_is_halved_as_far_as_its_log_goes(rt: HostRuntime) -> Result<(), Fail> {
    let alloc = rt.alloc();
    let mut book = Journal::new(alloc);
    book.reserve(8)?;
    push_first_splits(&mut book, 1, &[number().with_log(2)], &[0, 0, 0, 0], 1);
    push_asks(&mut book, 1, &[number()]);
    assert!(rt; written(&book) == (Some(2), Some(1), true));
    Ok(())
}
