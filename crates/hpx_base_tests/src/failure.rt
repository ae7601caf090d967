use hpx_commit::failure::plan_failure;
use hpx_commit::plan::Plan;
use hpx_value::codes::{SESSION, SET};
use hpx_value::gid::Gid;
use hpx_value::items::Items;
use hpx_value::memory::OutOfMemory;
use hpx_value::outcome::Due;
use hpx_value::value::{Act, Cont, State, Value};
use std::alloc::Global;

/// A state of one id.
fn state(alloc: Global) -> Result<State, OutOfMemory> {
    let mut values = Items::new(alloc);
    values.push(Value::Ref(0))?;
    let mut ids = Items::new(alloc);
    ids.push(Gid::new(0, 16, 1).with_log(5))?;
    Ok(State {
        drawn: 3,
        values,
        conts: Items::new(alloc),
        ids,
    })
}

/// An action on the session with an argument and a continuation.
fn action(alloc: Global) -> Result<Act, OutOfMemory> {
    let mut args = Items::new(alloc);
    args.push(Value::Ref(1))?;
    let mut ids = Items::new(alloc);
    ids.push(Gid::new(0, SESSION, 1))?;
    ids.push(Gid::new(1, 17, 2).with_log(1))?;
    ids.push(Gid::new(1, 33, 3).with_log(4))?;
    Ok(Act {
        origin: 0,
        serial: 1,
        code: 16,
        args,
        cont: Some(Cont { place: 2, slot: 9 }),
        ids,
    })
}

fn is_answer(due: &Due, id: Gid) -> bool {
    match due {
        Due::Message(message) => message.code == SET && message.ids.as_slice() == [id].as_slice(),
        Due::Print(_bytes) => false,
    }
}

fn is_print(due: &Due, text: &[u8]) -> bool {
    match due {
        Due::Message(_message) => false,
        Due::Print(bytes) => bytes.as_slice() == text,
    }
}

#[test]
fn a_failed_action_answers_and_gives_up_the_rest(rt: HostRuntime) -> Result<(), OutOfMemory> {
    let alloc = rt.alloc();
    let state = state(alloc)?;
    let action = action(alloc)?;
    assert!(rt; state.ids.len() == 1);
    assert!(rt; action.ids.len() == 3);
    let kept = Gid::new(0, 16, 1).with_log(4);
    let target = Gid::new(0, SESSION, 1);
    let rest = Gid::new(1, 17, 2).with_log(0);
    let answered = Gid::new(1, 33, 3).with_log(3);
    let made = Gid::new(0, 16, 9).with_log(10);
    let half = Gid::new(0, 16, 1).with_log(4);
    let ids = [kept, target, rest, answered, made, half, rest];
    let Plan { state, due, ups } = plan_failure(alloc, &state, &action, 1, &ids)?;
    assert!(rt; state.drawn == 3 && state.values.len() == 1);
    assert!(rt; state.ids.as_slice() == [kept].as_slice());
    assert!(rt; ups.as_slice() == [rest, half, rest].as_slice());
    assert!(rt; due.len() == 2);
    assert!(rt; is_answer(&due[0], answered));
    assert!(rt; is_print(&due[1], b"error: credit limit\n"));
    Ok(())
}
