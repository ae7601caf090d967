use app_compute::act::compute_act;
use app_compute::codes::{FIB, SUM};
use app_compute::line::{fib_line, question_of};
use app_compute::load::generated;
use app_compute::ring::{Ring, ring_in, ring_out};
use app_compute::session::{MARK, computes, session_act};
use app_compute::shape::{Shape, shape_of, stencil_line};
use hpx_calls::codes::{PARTITION, STEP, WHERE};
use hpx_value::codes::{ADD, LINE, PLAIN, SET};
use hpx_value::gid::{Gid, Gids};
use hpx_value::items::{Items, Text};
use hpx_value::outcome::{Outcome, SendCont, Target};
use hpx_value::value::{Act, Cont, State, Value, Values};
use std::alloc::Global;
use std::fmt::Write;
use std::test::Fail;

fn numbers(alloc: Global, list: &[i64]) -> Result<Values, Fail> {
    let mut values = Items::new(alloc);
    for number in list {
        values.push(Value::Int(*number))?;
    }
    Ok(values)
}

fn ids(alloc: Global, count: usize) -> Result<Gids, Fail> {
    let mut ids = Items::new(alloc);
    for _ in 0..count {
        ids.push(Gid::new(0, 1, 1))?;
    }
    Ok(ids)
}

fn state(alloc: Global, values: Values) -> State {
    State {
        drawn: 7,
        values,
        conts: Items::new(alloc),
        ids: Items::new(alloc),
    }
}

fn action(alloc: Global, code: u16, args: Values, cont: Option<Cont>) -> Result<Act, Fail> {
    Ok(Act {
        origin: 0,
        serial: 1,
        code,
        args,
        cont,
        ids: ids(alloc, 2)?,
    })
}

fn show(line: &mut String, value: &Value) -> Result<(), Fail> {
    match value {
        Value::Int(number) => write!(line, "{number}")?,
        Value::Fault(code) => write!(line, "fault {code}")?,
        Value::Flag(false) => line.push_str("-")?,
        Value::Ints(row) => {
            for number in row.as_slice() {
                write!(line, "{number} ")?;
            }
        }
        _ => line.push_str("other")?,
    }
    Ok(())
}

// What an outcome makes, sends, answers and prints, and what it keeps.
fn told(alloc: Global, outcome: &Outcome) -> Result<String, Fail> {
    let mut line = String::new(alloc);
    for make in outcome.makes.as_slice() {
        let kind = make.kind;
        write!(line, "makes {kind}; ")?;
    }
    for sending in outcome.sends.as_slice() {
        let code = sending.code;
        match sending.target {
            Target::Place(place) => write!(line, "{code} to {place}")?,
            Target::Root { kind, at } => write!(line, "{code} to {kind} of {at}")?,
        }
        for value in sending.args.as_slice() {
            line.push_str(" ")?;
            show(&mut line, value)?;
        }
        match sending.cont {
            SendCont::Nothing => line.push_str("; ")?,
            SendCont::Own(number) => write!(line, " for {number}; ")?,
            SendCont::Made { make, slot } => write!(line, " for {make}.{slot}; ")?,
            SendCont::Here { slot } => write!(line, " for slot {slot}; ")?,
        }
    }
    for reply in outcome.replies.as_slice() {
        show(&mut line, &reply.value)?;
    }
    for print in outcome.prints.as_slice() {
        for byte in print.as_slice() {
            let letter = char::from(*byte);
            write!(line, "{letter}")?;
        }
    }
    Ok(line)
}

// A code, two numbers, and what comes of it at locality 2 of 3.
type Row = (u16, i64, i64, &'static str);

const PLAIN_ROWS: [Row; 14] = [
    (FIB, 0, 2, "0"),
    (FIB, 1, 2, "1"),
    (FIB, 10, 11, "55"),
    (FIB, 91, 92, "4660046610375530309"),
    (
        FIB,
        2,
        2,
        "makes 33; 48 to 7 of 0 1 2 for 0.0; 48 to 7 of 2 0 2 for 0.1; 32 to 2 for 0; ",
    ),
    (
        FIB,
        92,
        92,
        "makes 33; 48 to 7 of 0 91 92 for 0.0; 48 to 7 of 2 90 92 for 0.1; 32 to 2 for 0; ",
    ),
    (FIB, 93, 92, "fault 11"),
    (FIB, -1, 2, "fault 11"),
    (FIB, 10, 1, "fault 11"),
    (FIB, 10, 93, "fault 11"),
    (
        SUM,
        2880067194370816120,
        4660046610375530309,
        "7540113804746346429",
    ),
    (SUM, i64::MAX, 1, "fault 1"),
    (SUM, i64::MIN, -1, "fault 1"),
    (ADD, 1, 1, "fault 11"),
];

#[test]
fn plain_objects_compute(rt: HostRuntime) -> Result<(), Fail> {
    let alloc = rt.alloc();
    for (code, first, second, want) in PLAIN_ROWS {
        let cont = Some(Cont { place: 1, slot: 9 });
        let asked = action(alloc, code, numbers(alloc, &[first, second])?, cont)?;
        let blank = state(alloc, Items::new(alloc));
        let outcome = compute_act(alloc, PLAIN, 2, 3, &blank, &asked)?;
        let text = told(alloc, &outcome)?;
        assert!(rt; text.as_str() == want, "{text}");
    }
    Ok(())
}

#[test]
fn a_plain_object_has_no_state(rt: HostRuntime) -> Result<(), Fail> {
    let alloc = rt.alloc();
    let cont = Some(Cont { place: 1, slot: 9 });
    let asked = action(alloc, SUM, numbers(alloc, &[1, 2])?, cont)?;
    let held = state(alloc, numbers(alloc, &[5])?);
    let outcome = compute_act(alloc, PLAIN, 0, 1, &held, &asked)?;
    assert!(rt; told(alloc, &outcome)?.as_str() == "fault 11");
    Ok(())
}

#[test]
fn parts_of_a_ring_step(rt: HostRuntime) -> Result<(), Fail> {
    let alloc = rt.alloc();
    let rows: [(&[i64], i64, i64, &str); 6] = [
        (&[0, 1], 3, 2, "2 1 "),
        (&[2, 3], 1, 0, "2 1 "),
        (&[2, 1], 1, 2, "1 2 "),
        (&[7], 7, 7, "7 "),
        (&[0, 0], -1, 0, "-1 0 "),
        (&[i64::MAX], i64::MAX, i64::MAX, "9223372036854775807 "),
    ];
    for (row, left, right, want) in rows {
        let mut ints = Items::new(alloc);
        for number in row {
            ints.push(*number)?;
        }
        let mut values = Items::new(alloc);
        values.push(Value::Ints(ints))?;
        let cont = Some(Cont { place: 1, slot: 9 });
        let asked = action(alloc, STEP, numbers(alloc, &[left, right])?, cont)?;
        let outcome = compute_act(alloc, PARTITION, 0, 1, &state(alloc, values), &asked)?;
        let text = told(alloc, &outcome)?;
        assert!(rt; text.as_str() == want, "{text}");
    }
    let asked = action(
        alloc,
        WHERE,
        Items::new(alloc),
        Some(Cont { place: 1, slot: 9 }),
    )?;
    let outcome = compute_act(
        alloc,
        PARTITION,
        3,
        4,
        &state(alloc, Items::new(alloc)),
        &asked,
    )?;
    assert!(rt; told(alloc, &outcome)?.as_str() == "3");
    Ok(())
}

fn text(alloc: Global, mark: u8, line: &[u8]) -> Result<Text, Fail> {
    let mut text = Items::new(alloc);
    text.push(mark)?;
    for byte in line {
        text.push(*byte)?;
    }
    Ok(text)
}

#[test]
fn lines_ask_for_numbers(rt: HostRuntime) -> Result<(), Fail> {
    let alloc = rt.alloc();
    let rows: [(u8, &[u8], &str); 10] = [
        (MARK, b"fib 10 2", "48 to 7 of 0 10 2 for slot 7; "),
        (MARK, b"fib 92 92", "48 to 7 of 0 92 92 for slot 7; "),
        (MARK, b"fib 0 2", "48 to 7 of 0 0 2 for slot 7; "),
        (MARK, b"fib 93 2", ""),
        (MARK, b"fib 10 1", ""),
        (MARK, b"fib 10", ""),
        (MARK, b"fib  10", ""),
        (MARK, b"fib 1x 2", ""),
        (MARK, b"fob 10 2", ""),
        (b'a', b"fib 10 2", ""),
    ];
    for (mark, line, want) in rows {
        let mut args = Items::new(alloc);
        args.push(Value::Text(text(alloc, mark, line)?))?;
        let fed = action(alloc, LINE, args, None)?;
        let session = state(alloc, Items::new(alloc));
        assert!(rt; computes(&session, &fed) == (mark == MARK));
        let outcome = session_act(alloc, 0, &session, &fed)?;
        let text = told(alloc, &outcome)?;
        assert!(rt; text.as_str() == want, "{text}");
    }
    Ok(())
}

#[test]
fn the_line_of_a_question_asks_it(rt: HostRuntime) -> Result<(), Fail> {
    let alloc = rt.alloc();
    let line = fib_line(alloc, 20, 6)?;
    assert!(rt; line.as_slice() == b"fib 20 6".as_slice());
    let asked = question_of(alloc, line.as_slice())?;
    assert!(rt; matches!(asked, Some(asked) if asked.number == 20 && asked.threshold == 6));
    Ok(())
}

#[test]
fn answers_are_printed(rt: HostRuntime) -> Result<(), Fail> {
    let alloc = rt.alloc();
    let rows: [(i64, Value, &str); 5] = [
        (7, Value::Int(55), "fibonacci(10) == 55\n"),
        (7, Value::Fault(5), "error: credit limit\n"),
        (7, Value::Unit, ""),
        (6, Value::Int(55), ""),
        (-1, Value::Int(55), ""),
    ];
    for (slot, value, want) in rows {
        let mut args = numbers(alloc, &[slot])?;
        args.push(value)?;
        let answer = action(alloc, SET, args, None)?;
        let mut values = Items::new(alloc);
        values.push(Value::Flag(false))?;
        values.push(Value::Int(10))?;
        values.push(Value::Int(7))?;
        let session = state(alloc, values);
        assert!(rt; computes(&session, &answer));
        let outcome = session_act(alloc, 0, &session, &answer)?;
        let text = told(alloc, &outcome)?;
        assert!(rt; text.as_str() == want, "{text}");
    }
    Ok(())
}

#[test]
fn a_made_session_begins_so(rt: HostRuntime) -> Result<(), Fail> {
    let alloc = rt.alloc();
    let rows: [(u32, u32, u32, &str); 3] = [
        (
            1,
            0,
            1,
            "new o0 0,new o1 0,new o2 0,new o3 0,new o4 0,new o5 0,new o6 0,new o7 0,",
        ),
        (
            1,
            10,
            2,
            "new o0 0,new o1 1,new o2 0,new o3 1,new o4 0,new o5 1,new o6 0,new o7 1,new o6 1,drop o6,new o1 0,share o3 1,add o3 51,drop o3,move o2 1,drop o3,add o4 12,unshare o6 1,",
        ),
        (
            2147483647,
            6,
            3,
            "new o0 0,new o1 1,new o2 2,new o3 0,new o4 1,new o5 2,new o6 0,new o7 1,drop o1,drop o1,new o6 1,add o6 18,add o1 13,new o2 0,",
        ),
    ];
    for (start, lines, n, want) in rows {
        let mut all = String::new(alloc);
        for line in generated(alloc, start, lines, n)?.as_slice() {
            for byte in line.as_slice() {
                let letter = char::from(*byte);
                write!(all, "{letter}")?;
            }
            all.push_str(",")?;
        }
        assert!(rt; all.as_str() == want, "{all}");
    }
    Ok(())
}

#[test]
fn lines_ask_for_rings(rt: HostRuntime) -> Result<(), Fail> {
    let alloc = rt.alloc();
    let line = stencil_line(alloc, 4, 2, 2)?;
    assert!(rt; line.as_slice() == b"stencil 4 2 2".as_slice());
    let rows: [(&[u8], Option<Shape>); 6] = [
        (
            b"stencil 4 2 2",
            Some(Shape {
                points: 4,
                parts: 2,
                steps: 2,
            }),
        ),
        (
            b"stencil 1 1 0",
            Some(Shape {
                points: 1,
                parts: 1,
                steps: 0,
            }),
        ),
        (b"stencil 4 3 2", None),
        (b"stencil 1025 1 2", None),
        (b"stencil 0 1 2", None),
        (b"stencil 4 0 2", None),
    ];
    for (line, want) in rows {
        assert!(rt; shape_of(alloc, line)? == want);
    }
    Ok(())
}

#[test]
fn a_ring_is_laid_out_and_read_again(rt: HostRuntime) -> Result<(), Fail> {
    let alloc = rt.alloc();
    let ring = Ring {
        rows: 3,
        first: 9,
        size: 2,
        parts: Items::new(alloc),
    };
    let mut values = ring_out(alloc, ring)?;
    values.push(Value::Ref(0))?;
    values.push(Value::Unit)?;
    let read = ring_in(alloc, values.as_slice())?;
    assert!(rt; read.is_some());
    if let Some(ring) = &read {
        assert!(rt; ring.rows == 3 && ring.first == 9 && ring.size == 2 && ring.parts.len() == 1);
    }
    values.push(Value::Ref(1))?;
    assert!(rt; ring_in(alloc, values.as_slice())?.is_none());
    Ok(())
}
