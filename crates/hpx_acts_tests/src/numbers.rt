ghost use Rattle.std.specs.Prelude.{◌≤◌};

use hpx_calls::codes::{ACCUMULATOR, GET, PARTITION, RESET, STEP, WHERE};
use hpx_numbers::act::number_act;
use hpx_value::codes::{ADD, MOVE, QUERY};
use hpx_value::exact::Exact;
use hpx_value::items::Items;
use hpx_value::memory::OutOfMemory;
use hpx_value::outcome::Outcome;
use hpx_value::value::{Act, Cont, State, Value, Values};
use std::alloc::Global;
use std::test::Fail;

const HERE: u32 = 5;

fn ints(alloc: Global, numbers: &[i64]) -> Result<Value, OutOfMemory> {
    Ok(Value::Ints(Items::from_vec(Vec::from_slice(alloc, numbers)?)))
}

fn one(alloc: Global, value: Value) -> Result<Values, OutOfMemory> {
    let mut values = Items::new(alloc);
    values.push(value)?;
    Ok(values)
}

// What a call with these numbers does to an object that keeps a value.
fn called(
    alloc: Global,
    kind: u32,
    kept: Value,
    code: u16,
    args: &[i64],
) -> Result<Outcome, OutOfMemory>
    requires low { 16 ≤ kind }
    requires high { kind ≤ 31 }
{
    let state = State {
        drawn: 0,
        values: one(alloc, kept)?,
        conts: Items::new(alloc),
        ids: Items::new(alloc),
    };
    let mut values = Items::new(alloc);
    for number in args {
        values.push(Value::Int(*number))?;
    }
    let action = Act {
        origin: 0,
        serial: 1,
        code,
        args: values,
        cont: Some(Cont { place: 0, slot: 7 }),
        ids: Items::new(alloc),
    };
    number_act(alloc, kind, HERE, &state, &action)
}

// Whether it keeps one value and gives one answer.
fn comes_to(outcome: &Outcome, kept: &Value, answer: &Value) -> bool {
    let keeps = match outcome.state.values.as_slice() {
        [value] => value.same(kept),
        _ => false,
    };
    let answers = match outcome.replies.as_slice() {
        [reply] => reply.value.same(answer),
        _ => false,
    };
    keeps && answers && outcome.sends.is_empty() && outcome.prints.is_empty()
}

#[test]
fn an_accumulator_counts(rt: HostRuntime) -> Result<(), Fail> {
    let alloc = rt.alloc();
    let most = i64::MAX;
    for (number, code, args, kept, answer) in [
        (0i64, ADD, &[most] as &[i64], most, Value::Unit),
        (most, ADD, &[1], most, Value::Fault(1)),
        (i64::MIN, ADD, &[-1], i64::MIN, Value::Fault(1)),
        (most, ADD, &[i64::MIN], -1, Value::Unit),
        (5, QUERY, &[], 5, Value::Int(5)),
        (5, RESET, &[], 0, Value::Unit),
        (7, WHERE, &[], 7, Value::Int(i64::from(HERE))),
        (7, MOVE, &[63], 7, Value::Int(i64::from(HERE))),
        (7, MOVE, &[64], 7, Value::Fault(11)),
        (7, QUERY, &[1], 7, Value::Fault(11)),
        (7, STEP, &[1, 2], 7, Value::Fault(11)),
        (7, GET, &[], 7, Value::Fault(11)),
    ] {
        let outcome = called(alloc, ACCUMULATOR, Value::Int(number), code, args)?;
        assert!(rt; comes_to(&outcome, &Value::Int(kept), &answer));
    }
    Ok(())
}

// Each number becomes half the sum of those at its sides, as they were, rounded down.
#[test]
fn a_partition_steps(rt: HostRuntime) -> Result<(), Fail> {
    let alloc = rt.alloc();
    for (numbers, left, right, want) in [
        (&[0i64, 1] as &[i64], 3i64, 2i64, &[2i64, 1] as &[i64]),
        (&[2, 3], 1, 0, &[2, 1]),
        (&[9], -3, 0, &[-2]),
        (&[9], -1, 0, &[-1]),
        (&[9], i64::MAX, i64::MAX, &[i64::MAX]),
        (&[9], i64::MIN, i64::MIN, &[i64::MIN]),
        (&[9], i64::MIN, i64::MAX, &[-1]),
        (&[1, 2, 3, 4], 0, 5, &[1, 2, 3, 4]),
    ] {
        let outcome = called(
            alloc,
            PARTITION,
            ints(alloc, numbers)?,
            STEP,
            &[left, right],
        )?;
        let want = ints(alloc, want)?;
        assert!(rt; comes_to(&outcome, &want, &want));
    }
    let kept = ints(alloc, &[1])?;
    let outcome = called(alloc, PARTITION, ints(alloc, &[1])?, ADD, &[1])?;
    assert!(rt; comes_to(&outcome, &kept, &Value::Fault(11)));
    // A partition of no numbers is none.
    let kept = ints(alloc, &[])?;
    let outcome = called(alloc, PARTITION, ints(alloc, &[])?, STEP, &[1, 2])?;
    assert!(rt; comes_to(&outcome, &kept, &Value::Fault(11)));
    Ok(())
}
