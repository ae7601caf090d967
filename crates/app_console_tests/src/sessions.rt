//! Tables of lines and answers at one session, with what it prints, sends and keeps then.
use crate::desk::{Name, Said, Stands, added, answered, fed, printed, session, text};
use app_console::lines::{ACCUMULATOR, SPACE};
use hpx_value::codes::{COMPONENTS, LOCALITIES, SHELF, SYMBOLS};
use hpx_value::items::Items;
use hpx_value::memory::OutOfMemory;
use hpx_value::outcome::{SendCont, Target};
use hpx_value::value::Value;
use std::test::Fail;

const OWN: u8 = b'o';

/// An accumulator, a latch, a name whose object has not come, and the one of the accumulator's console.
const NAMES: &[Name] = &[
    (b"a", Stands::Accumulator),
    (b"w", Stands::Latch),
    (b"p", Stands::Pending),
    (b"", Stands::Accumulator),
];

#[test]
fn a_line_sends(rt: HostRuntime) -> Result<(), Fail> {
    let alloc = rt.alloc();
    let state = session(alloc, NAMES, &[])?;
    for (mark, line, target, code, args) in [
        (
            SPACE,
            b"new b 1".as_slice(),
            Target::Root {
                kind: COMPONENTS,
                at: 1,
            },
            5u16,
            1usize,
        ),
        (
            SPACE,
            b"latch b 0 3",
            Target::Root {
                kind: COMPONENTS,
                at: 0,
            },
            5,
            2,
        ),
        (SPACE, b"add a -12", Target::Place(0), 16, 1),
        (SPACE, b" wait  w\t", Target::Place(1), 36, 0),
        (SPACE, b"move a 1", Target::Place(0), 1, 1),
        (
            SPACE,
            b"share a 1",
            Target::Root { kind: SHELF, at: 1 },
            6,
            2,
        ),
        (
            SPACE,
            b"lookup b k",
            Target::Root {
                kind: SYMBOLS,
                at: 0,
            },
            7,
            1,
        ),
        (
            SPACE,
            b"localities",
            Target::Root {
                kind: LOCALITIES,
                at: 0,
            },
            10,
            0,
        ),
        (ACCUMULATOR, b"reset", Target::Place(2), 18, 0),
        (
            OWN,
            b"open",
            Target::Root {
                kind: COMPONENTS,
                at: 1,
            },
            5,
            1,
        ),
    ] {
        let outcome = fed(alloc, &state, mark, line)?;
        assert!(rt; outcome.prints.is_empty());
        assert_eq!(rt; outcome.state.drawn, 8);
        let sends = outcome.sends.as_slice();
        assert_eq!(rt; sends.len(), 1);
        assert_eq!(rt; sends[0].target, target);
        assert_eq!(rt; sends[0].code, code);
        assert_eq!(rt; sends[0].args.len(), args);
        assert_eq!(rt; sends[0].cont, SendCont::Here { slot: 7 });
    }
    Ok(())
}

#[test]
fn an_answer_prints(rt: HostRuntime) -> Result<(), Fail> {
    let alloc = rt.alloc();
    for (said, value, want) in [
        (
            Said::Told,
            Value::Int(i64::MIN),
            b"-9223372036854775808\n".as_slice(),
        ),
        (Said::Told, Value::Text(text(alloc, b"a b")?), b"a b\n"),
        (
            Said::Told,
            Value::Text(Items::from_vec(vec![in alloc; b'k'; 16384]?)),
            b"error: full\n",
        ),
        (Said::Told, Value::Unit, b""),
        (Said::Released, Value::Unit, b"released\n"),
        (Said::Nothing, Value::Int(1), b""),
        (Said::Bound(b"p"), Value::Ref(0), b""),
        (Said::Nothing, Value::Fault(1), b"error: overflow\n"),
        (Said::Nothing, Value::Fault(2), b"error: taken\n"),
        (Said::Bound(b"p"), Value::Fault(3), b"error: no such name\n"),
        (Said::Bound(b"p"), Value::Fault(4), b"error: no such kind\n"),
        (Said::Told, Value::Fault(5), b"error: credit limit\n"),
        (Said::Nothing, Value::Fault(6), b"error: already set\n"),
        (Said::Nothing, Value::Fault(7), b"error: no such slot\n"),
        (Said::Told, Value::Fault(8), b"error: closed\n"),
        (Said::Nothing, Value::Fault(9), b"error: spent\n"),
        (Said::Told, Value::Fault(10), b"error: full\n"),
        (Said::Released, Value::Fault(11), b"error: wrong kind\n"),
    ] {
        let state = session(alloc, NAMES, &[(6, said)])?;
        let outcome = answered(alloc, &state, 6, value)?;
        assert_eq!(rt; printed(alloc, &outcome)?.as_slice(), want);
        assert!(rt; outcome.sends.is_empty());
    }
    Ok(())
}

// Slot 6 is awaited. A name that came stands behind those before it; one whose answer is no object is a name no more.
#[test]
fn an_answer_is_taken_once(rt: HostRuntime) -> Result<(), Fail> {
    let alloc = rt.alloc();
    let state = session(alloc, NAMES, &[(6, Said::Bound(b"p"))])?;
    for slot in [7i64, 5, -1, 4294967302] {
        let outcome = answered(alloc, &state, slot, Value::Ref(0))?;
        assert_eq!(rt; outcome.state.values.len(), 10);
    }
    let bound = answered(alloc, &state, 6, Value::Ref(0))?;
    let values = bound.state.values.as_slice();
    assert_eq!(rt; values.len(), 8);
    // The answer's place stands behind the three of the state.
    assert!(rt; matches!(&values[6], Value::Text(name) if name.as_slice() == b"p".as_slice()));
    assert!(rt; matches!(&values[7], Value::Ref(3)));
    let refused = answered(alloc, &state, 6, Value::Fault(4))?;
    assert_eq!(rt; refused.state.values.len(), 6);
    Ok(())
}

#[test]
fn a_drop_gives_the_id_up(rt: HostRuntime) -> Result<(), OutOfMemory> {
    let alloc = rt.alloc();
    let state = session(alloc, NAMES, &[])?;
    let outcome = fed(alloc, &state, SPACE, b"drop a")?;
    assert!(rt; outcome.prints.is_empty() && outcome.sends.is_empty());
    let values = outcome.state.values.as_slice();
    assert_eq!(rt; values.len(), 6);
    assert!(rt; matches!(&values[1], Value::Ref(1)));
    Ok(())
}

#[test]
fn an_accumulator_adds(rt: HostRuntime) -> Result<(), OutOfMemory> {
    let alloc = rt.alloc();
    for (number, other, sum, answer) in [
        (2, 3, 5, Value::Unit),
        (i64::MIN, -1, i64::MIN, Value::Fault(1)),
    ] {
        let outcome = added(alloc, number, other)?;
        assert!(rt; matches!(outcome.state.values.as_slice(), [Value::Int(kept)] if *kept == sum));
        let replies = outcome.replies.as_slice();
        assert_eq!(rt; replies.len(), 1);
        assert!(rt;
            matches!(
                (&replies[0].value, &answer),
                (Value::Unit, Value::Unit) | (Value::Fault(1), Value::Fault(1))
            )
        );
    }
    Ok(())
}
