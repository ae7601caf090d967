use hpx_commit::deal::log_of;
use hpx_commit::hand::Hand;
use hpx_commit::mentions::{mentions, mentions_with};
use hpx_commit::plan::places_named;
use hpx_commit::stock::split_ahead;
use hpx_value::codes::SESSION;
use hpx_value::exact::Exact;
use hpx_value::gid::Gid;
use hpx_value::items::{Items, Text};
use hpx_value::memory::OutOfMemory;
use hpx_value::outcome::{Due, Make, NewState, Outcome, Reply, SendCont, Sending, Target};
use hpx_value::value::{Act, Cont, State, Value, Values};
use std::alloc::Global;

fn refs(alloc: Global, places: &[u16]) -> Result<Values, OutOfMemory> {
    let mut values = Items::new(alloc);
    for place in places {
        values.push(Value::Ref(*place))?;
    }
    Ok(values)
}

fn ids(alloc: Global, count: u64) -> Result<Items<Gid>, OutOfMemory> {
    let mut ids = Items::new(alloc);
    for number in 1..=count {
        ids.push(Gid::new(0, 16, number))?;
    }
    Ok(ids)
}

/// A state of two ids, one of them of a kept continuation.
fn state(alloc: Global) -> Result<State, OutOfMemory> {
    let mut conts = Items::new(alloc);
    conts.push(Cont { place: 1, slot: 4 })?;
    Ok(State {
        drawn: 0,
        values: refs(alloc, &[0])?,
        conts,
        ids: ids(alloc, 2)?,
    })
}

/// An action of three ids: its target, a Ref, and its continuation's.
fn action(alloc: Global) -> Result<Act, OutOfMemory> {
    Ok(Act {
        origin: 0,
        serial: 1,
        code: 16,
        args: refs(alloc, &[1])?,
        cont: Some(Cont { place: 2, slot: 0 }),
        ids: ids(alloc, 3)?,
    })
}

/// The state keeps its Ref, the action's and its continuation; one send makes an object wait, the other hands the
/// action's continuation on; and a reply goes there too.
fn outcome(alloc: Global) -> Result<Outcome, OutOfMemory> {
    let mut conts = Items::new(alloc);
    conts.push(0)?;
    let mut makes = Items::new(alloc);
    makes.push(Make {
        kind: 32,
        values: Items::new(alloc),
    })?;
    let mut sends = Items::new(alloc);
    sends.push(Sending {
        target: Target::Place(2),
        code: 16,
        args: refs(alloc, &[5])?,
        cont: SendCont::Made { make: 0, slot: 7 },
    })?;
    sends.push(Sending {
        target: Target::Root { kind: 7, at: 0 },
        code: 48,
        args: Items::new(alloc),
        cont: SendCont::Own(1),
    })?;
    let mut replies = Items::new(alloc);
    replies.push(Reply {
        cont: 1,
        value: Value::Ref(3),
    })?;
    let prints: Items<Text> = Items::new(alloc);
    Ok(Outcome {
        state: NewState {
            drawn: 0,
            values: refs(alloc, &[0, 3])?,
            conts,
        },
        makes,
        sends,
        replies,
        prints,
    })
}

#[test]
fn names_the_state_first_then_sends_then_replies(rt: HostRuntime) -> Result<(), OutOfMemory> {
    let alloc = rt.alloc();
    let state = state(alloc)?;
    let action = action(alloc)?;
    assert!(rt; state.ids.len() == 2);
    assert!(rt; action.ids.len() == 3);
    let places = mentions(alloc, &state, &action, &outcome(alloc)?)?;
    assert!(rt; places.as_slice() == [0, 3, 1, 2, 5, 5, 4, 4, 3].as_slice());
    Ok(())
}

/// The state is kept, and the action's continuation is answered.
fn answered(alloc: Global) -> Result<Outcome, OutOfMemory> {
    let mut conts = Items::new(alloc);
    conts.push(0)?;
    let mut replies = Items::new(alloc);
    replies.push(Reply {
        cont: 1,
        value: Value::Int(6),
    })?;
    Ok(Outcome {
        state: NewState {
            drawn: 0,
            values: refs(alloc, &[0])?,
            conts,
        },
        makes: Items::new(alloc),
        sends: Items::new(alloc),
        replies,
        prints: Items::new(alloc),
    })
}

#[test]
fn an_answer_takes_along_the_target_that_nothing_names(rt: HostRuntime) -> Result<(), OutOfMemory> {
    let alloc = rt.alloc();
    let state = state(alloc)?;
    let action = action(alloc)?;
    let answered = answered(alloc)?;
    assert!(rt; state.ids.len() == 2);
    assert!(rt; action.ids.len() == 3);
    let places = mentions_with(alloc, &state, &action, &answered)?;
    assert!(rt; places.as_slice() == [0, 1, 4, 2].as_slice());
    let hand = Hand::of(alloc, &state, &action, &[])?;
    let due = hand.due(alloc, &answered)?;
    match due.as_slice() {
        [Due::Message(message)] => {
            let ids = [Gid::new(0, 16, 3), Gid::new(0, 16, 1)];
            assert!(rt; message.ids.as_slice() == ids.as_slice());
            assert!(rt; message.args.len() == 3);
            assert!(rt; message.args.as_slice()[2].same(&Value::Ref(1)));
        }
        _ => assert!(rt; false, "one message is due"),
    }
    let other = outcome(alloc)?;
    let all = mentions(alloc, &state, &action, &other)?;
    let with = mentions_with(alloc, &state, &action, &other)?;
    assert!(rt; with.as_slice() == all.as_slice());
    Ok(())
}

/// A state of 128 ids, each with credit for three halvings.
fn full_state(alloc: Global) -> Result<State, OutOfMemory> {
    let mut values = Items::new(alloc);
    let mut ids = Items::new(alloc);
    for place in 0..128u16 {
        values.push(Value::Ref(place))?;
        ids.push(Gid::new(0, 16, u64::from(place).saturating_add(1)).with_log(3))?;
    }
    Ok(State {
        drawn: 0,
        values,
        conts: Items::new(alloc),
        ids,
    })
}

/// All 128 are kept, and the first 32 are sent to the first of them.
fn full_outcome(alloc: Global, state: &State) -> Result<Outcome, OutOfMemory> {
    let mut args = Items::new(alloc);
    for place in 0..32u16 {
        args.push(Value::Ref(place))?;
    }
    let mut sends = Items::new(alloc);
    sends.push(Sending {
        target: Target::Place(0),
        code: 16,
        args,
        cont: SendCont::Nothing,
    })?;
    Ok(Outcome {
        state: NewState {
            drawn: 0,
            values: state.values.duplicate(alloc)?,
            conts: Items::new(alloc),
        },
        makes: Items::new(alloc),
        sends,
        replies: Items::new(alloc),
        prints: Items::new(alloc),
    })
}

// The first id is named by the state, as a target and as an argument, 31 more by the state and as arguments.
#[test]
fn a_hand_of_128_ids_is_split(rt: HostRuntime) -> Result<(), OutOfMemory> {
    let alloc = rt.alloc();
    let state = full_state(alloc)?;
    let mut target = Items::new(alloc);
    target.push(Gid::new(0, SESSION, 1))?;
    let action = Act {
        origin: 0,
        serial: 1,
        code: 16,
        args: Items::new(alloc),
        cont: None,
        ids: target,
    };
    let outcome = full_outcome(alloc, &state)?;
    let hand = Hand::of(alloc, &state, &action, &[])?;
    assert!(rt; state.ids.len() == 128);
    assert!(rt; action.ids.len() == 1);
    let places = places_named(alloc, &hand, &outcome)?;
    assert!(rt; places.len() == 128 + 1 + 32);
    assert!(rt; hand.state_left(alloc, &outcome)?.ids.len() == 128);
    let ids = hand.ids();
    assert!(rt; ids.len() == 129);
    let stock = split_ahead(alloc, ids, places.as_slice(), 129)?;
    assert!(rt; stock.hand().len() == 129 + 2 + 31);
    assert!(rt; stock.short_places(alloc, 129)?.is_empty());
    let ids = stock.ids_at(alloc, &[0, 1, 31, 32, 127])?;
    let logs = ids.iter().map(|id| log_of(*id));
    assert!(rt; logs.collect::<Vec<u8>>(alloc)?.as_slice() == [1, 2, 2, 3, 3].as_slice());
    Ok(())
}
