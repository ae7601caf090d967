use hpx_calls::codes::{
    ARRIVE, BARRIER, CHANNEL, CLOSE, DATAFLOW, DOWN, GET, LATCH, PROMISE, PUT, WAIT, WHERE,
};
use hpx_lco::act::lco_act;
use hpx_value::codes::ADD;
use hpx_value::gid::{Gid, Gids};
use hpx_value::items::Items;
use hpx_value::outcome::{Outcome, SendCont};
use hpx_value::value::{Act, Cont, Conts, State, Value, Values};
use std::alloc::Global;
use std::fmt::Write;
use std::process::Abort;
use std::test::Fail;

// One object, which is called again and again.
#[derive(Drop)]
struct Object {
    kind: u32,
    state: State,
}

fn values(alloc: Global, list: Vec<Value>) -> Values {
    let _ = alloc;
    Items::from_vec(list)
}

fn ids(alloc: Global, count: usize) -> Result<Gids, Fail> {
    let mut ids = Items::new(alloc);
    for _ in 0..count {
        ids.push(Gid::new(0, 1, 1))?;
    }
    Ok(ids)
}

// The slot of a continuation of the hand.
fn slot_of(state: &State, own: u32, number: usize) -> u32 {
    match state.conts.as_slice().get(number) {
        Some(cont) => cont.slot,
        None => own,
    }
}

fn show(text: &mut String, value: &Value) -> Result<(), Fail> {
    match value {
        Value::Unit => text.push_str("unit")?,
        Value::Int(number) => write!(text, "{number}")?,
        Value::Fault(code) => write!(text, "fault {code}")?,
        _ => text.push_str("other")?,
    }
    Ok(())
}

// Who is answered what, and which action starts for whom.
fn told(alloc: Global, state: &State, own: u32, outcome: &Outcome) -> Result<String, Fail> {
    let mut text = String::new(alloc);
    for sending in outcome.sends.as_slice() {
        let code = sending.code;
        write!(text, "action {code}")?;
        for value in sending.args.as_slice() {
            text.push_str(" ")?;
            show(&mut text, value)?;
        }
        if let SendCont::Own(number) = sending.cont {
            let slot = slot_of(state, own, number as usize);
            write!(text, " for {slot};")?;
        }
    }
    for reply in outcome.replies.as_slice() {
        let slot = slot_of(state, own, reply.cont as usize);
        write!(text, "{slot}: ")?;
        show(&mut text, &reply.value)?;
        text.push_str(";")?;
    }
    Ok(text)
}

// The continuations that an outcome keeps.
fn kept(alloc: Global, state: &State, own: u32, outcome: &Outcome) -> Result<Conts, Fail> {
    let mut conts = Items::new(alloc);
    let mut place: u16 = 0;
    for number in outcome.state.conts.as_slice() {
        let slot = slot_of(state, own, *number as usize);
        conts.push(Cont { place, slot })?;
        place = place.wrapping_add(1);
    }
    Ok(conts)
}

impl Object {
    fn new(alloc: Global, kind: u32, list: Vec<Value>) -> Object {
        Object {
            kind,
            state: State {
                drawn: 0,
                values: values(alloc, list),
                conts: Items::new(alloc),
                ids: Items::new(alloc),
            },
        }
    }

    // Makes a call with a continuation, and says who is answered what.
    fn call(
        &mut self,
        alloc: Global,
        code: u16,
        args: Vec<Value>,
        cont: Option<Cont>,
    ) -> Result<String, Fail> {
        let action = Act {
            origin: 0,
            serial: 1,
            code,
            args: values(alloc, args),
            cont,
            ids: ids(alloc, 2)?,
        };
        let own = cont.map_or(0, |c| c.slot);
        let outcome = lco_act(alloc, self.kind.max(32), 5, &self.state, &action)?;
        let text = told(alloc, &self.state, own, &outcome)?;
        let conts = kept(alloc, &self.state, own, &outcome)?;
        let ids = ids(alloc, conts.len())?;
        self.state = State {
            drawn: 0,
            values: outcome.state.values,
            conts,
            ids,
        };
        Ok(text)
    }

    // Makes a call under a slot; it is to be answered so.
    fn says(
        &mut self,
        rt: &impl Abort,
        alloc: Global,
        slot: u32,
        code: u16,
        args: Vec<Value>,
        expected: &str,
    ) -> Result<(), Fail> {
        let text = self.call(alloc, code, args, Some(Cont { place: 1, slot }))?;
        assert!(rt; text.as_str() == expected, "{text}");
        Ok(())
    }
}

// A call under a slot with numbers for arguments, and what is told.
type Row = (u32, u16, &'static [i64], &'static str);

fn numbers(alloc: Global, list: &[i64]) -> Result<Vec<Value>, Fail> {
    let mut values = Vec::new(alloc);
    for number in list {
        values.push(Value::Int(*number))?;
    }
    Ok(values)
}

fn check(rt: &impl Abort, alloc: Global, mut object: Object, rows: &[Row]) -> Result<(), Fail> {
    for row in rows {
        let args = numbers(alloc, row.2)?;
        object.says(rt, alloc, row.0, row.1, args, row.3)?;
    }
    Ok(())
}

fn channel(alloc: Global) -> Result<Object, Fail> {
    Ok(Object::new(alloc, CHANNEL, vec![in alloc; Value::Flag(false)]?))
}

#[test]
fn a_channel_hands_values_on(rt: HostRuntime) -> Result<(), Fail> {
    let rows: [Row; 8] = [
        (1, GET, &[], ""),
        (2, PUT, &[5], "1: 5;2: unit;"),
        (3, PUT, &[6], "3: unit;"),
        (4, CLOSE, &[], "4: unit;"),
        (5, GET, &[], "5: 6;"),
        (6, GET, &[], "6: fault 8;"),
        (7, PUT, &[7], "7: fault 8;"),
        (8, WHERE, &[], "8: 5;"),
    ];
    check(&rt, rt.alloc(), channel(rt.alloc())?, &rows)
}

#[test]
fn a_closed_channel_tells_those_that_wait(rt: HostRuntime) -> Result<(), Fail> {
    let rows: [Row; 3] = [
        (1, GET, &[], ""),
        (2, GET, &[], ""),
        (4, CLOSE, &[], "1: fault 8;2: fault 8;4: unit;"),
    ];
    check(&rt, rt.alloc(), channel(rt.alloc())?, &rows)
}

#[test]
fn a_latch_frees_those_that_wait(rt: HostRuntime) -> Result<(), Fail> {
    let rows: [Row; 5] = [
        (1, WAIT, &[], ""),
        (2, DOWN, &[], "1: unit;2: unit;"),
        (3, DOWN, &[], "3: fault 9;"),
        (4, ADD, &[1], "4: fault 11;"),
        (5, WAIT, &[], "5: unit;"),
    ];
    let latch = Object::new(rt.alloc(), LATCH, numbers(rt.alloc(), &[1])?);
    check(&rt, rt.alloc(), latch, &rows)
}

#[test]
fn a_promise_has_one_value(rt: HostRuntime) -> Result<(), Fail> {
    let rows: [Row; 5] = [
        (1, PUT, &[4], "1: unit;"),
        (2, PUT, &[5], "2: fault 6;"),
        (3, GET, &[], "3: 4;"),
        (4, PUT, &[0, 5], "4: fault 11;"),
        (5, CLOSE, &[], "5: fault 11;"),
    ];
    let promise = Object::new(rt.alloc(), PROMISE, numbers(rt.alloc(), &[])?);
    check(&rt, rt.alloc(), promise, &rows)
}

#[test]
fn seven_wait_at_a_promise(rt: HostRuntime) -> Result<(), Fail> {
    let rows: [Row; 9] = [
        (1, GET, &[], ""),
        (2, GET, &[], ""),
        (3, GET, &[], ""),
        (4, GET, &[], ""),
        (5, GET, &[], ""),
        (6, GET, &[], ""),
        (7, GET, &[], ""),
        (8, GET, &[], "8: fault 10;"),
        (9, PUT, &[3], "1: 3;2: 3;3: 3;4: 3;5: 3;6: 3;7: 3;9: unit;"),
    ];
    let promise = Object::new(rt.alloc(), PROMISE, numbers(rt.alloc(), &[])?);
    check(&rt, rt.alloc(), promise, &rows)
}

#[test]
fn all_that_arrive_go_on(rt: HostRuntime) -> Result<(), Fail> {
    let rows: [Row; 4] = [
        (1, ARRIVE, &[], ""),
        (2, ARRIVE, &[], "1: unit;2: unit;"),
        (3, ARRIVE, &[], ""),
        (4, ARRIVE, &[], "3: unit;4: unit;"),
    ];
    let barrier = Object::new(rt.alloc(), BARRIER, numbers(rt.alloc(), &[2])?);
    check(&rt, rt.alloc(), barrier, &rows)
}

#[test]
fn a_dataflow_starts_once(rt: HostRuntime) -> Result<(), Fail> {
    let rows: [Row; 8] = [
        (1, PUT, &[2, 1], "1: fault 7;"),
        (2, PUT, &[0, 1], "2: unit;"),
        (3, PUT, &[0, 1], "3: fault 6;"),
        (4, GET, &[], ""),
        (5, GET, &[], "5: fault 9;"),
        (6, PUT, &[1, 8], "action 49 1 8 for 4;6: unit;"),
        (7, PUT, &[1, 8], "7: fault 6;"),
        (8, GET, &[], "8: fault 9;"),
    ];
    let dataflow = Object::new(rt.alloc(), DATAFLOW, numbers(rt.alloc(), &[49, 2])?);
    check(&rt, rt.alloc(), dataflow, &rows)
}

#[test]
fn a_state_of_another_shape_is_left_alone(rt: HostRuntime) -> Result<(), Fail> {
    let rows: [Row; 2] = [(1, GET, &[], "1: fault 11;"), (2, WHERE, &[], "2: 5;")];
    let dataflow = Object::new(rt.alloc(), DATAFLOW, numbers(rt.alloc(), &[3, 1])?);
    check(&rt, rt.alloc(), dataflow, &rows)
}
