use hpx_calls::codes::{
    ACCUMULATOR, COUNT, LIST, NEW, PARTITION, REGISTER, RESOLVE, UNREGISTER, WHERE,
};
use hpx_calls::read::content_in;
use hpx_names::act::names_act;
use hpx_value::codes::{COMPONENTS, LOCALITIES, SYMBOLS};
use hpx_value::gid::{Gid, Gids};
use hpx_value::items::{Items, Text};
use hpx_value::outcome::Outcome;
use hpx_value::value::{Act, Cont, State, Value, Values};
use std::alloc::Global;
use std::fmt::Write;
use std::process::Abort;
use std::test::Fail;

// One object, which is called again and again.
#[derive(Drop)]
struct Object {
    kind: u32,
    state: State,
}

fn text(alloc: Global, bytes: &[u8]) -> Result<Text, Fail> {
    let mut text = Items::new(alloc);
    for byte in bytes {
        text.push(*byte)?;
    }
    Ok(text)
}

fn word(alloc: Global, bytes: &[u8]) -> Result<Value, Fail> {
    Ok(Value::Text(text(alloc, bytes)?))
}

fn ids(alloc: Global, count: usize) -> Result<Gids, Fail> {
    let mut ids = Items::new(alloc);
    for _ in 0..count {
        ids.push(Gid::new(0, 1, 1))?;
    }
    Ok(ids)
}

// What the one reply says, and what is made.
fn told(alloc: Global, outcome: &Outcome) -> Result<String, Fail> {
    let mut line = String::new(alloc);
    for make in outcome.makes.as_slice() {
        let kind = make.kind;
        write!(line, "makes {kind};")?;
    }
    for reply in outcome.replies.as_slice() {
        match &reply.value {
            Value::Unit => line.push_str("unit")?,
            Value::Int(number) => write!(line, "{number}")?,
            Value::Fault(code) => write!(line, "fault {code}")?,
            Value::Ref(place) => write!(line, "place {place}")?,
            Value::Text(bytes) => {
                for byte in bytes.as_slice() {
                    let letter = char::from(*byte);
                    write!(line, "{letter}")?;
                }
            }
            _ => line.push_str("other")?,
        }
    }
    Ok(line)
}

// The values with their Refs numbered anew, and how many there are.
fn renumbered(alloc: Global, values: Values) -> Result<(Values, usize), Fail> {
    let mut list = Items::new(alloc);
    let mut count: u16 = 0;
    for value in values.into_vec() {
        match value {
            Value::Ref(_) => {
                list.push(Value::Ref(count))?;
                count = count.wrapping_add(1);
            }
            value => list.push(value)?,
        }
    }
    Ok((list, count as usize))
}

impl Object {
    fn new(alloc: Global, kind: u32, list: Vec<Value>) -> Object {
        Object {
            kind,
            state: State {
                drawn: 0,
                values: Items::from_vec(list),
                conts: Items::new(alloc),
                ids: Items::new(alloc),
            },
        }
    }

    // Makes a call of three localities' services; it is to be answered so.
    fn says(
        &mut self,
        rt: &impl Abort,
        alloc: Global,
        code: u16,
        args: Vec<Value>,
        expected: &str,
    ) -> Result<(), Fail> {
        let action = Act {
            origin: 0,
            serial: 1,
            code,
            args: Items::from_vec(args),
            cont: Some(Cont { place: 2, slot: 7 }),
            ids: ids(alloc, 3)?,
        };
        let outcome = names_act(alloc, self.kind.min(15), 2, 3, &self.state, &action)?;
        let line = told(alloc, &outcome)?;
        assert!(rt; line.as_str() == expected, "{line}");
        let state = outcome.state;
        let (values, count) = renumbered(alloc, state.values)?;
        self.state = State {
            drawn: 0,
            values,
            conts: Items::new(alloc),
            ids: ids(alloc, count)?,
        };
        Ok(())
    }
}

// Three numbers.
fn row(alloc: Global) -> Result<Value, Fail> {
    Ok(Value::Ints(Items::from_vec(vec![in alloc; 4, 5, 6]?)))
}

// A call with a word, if there is one, and a Ref or a number after it, and what is told.
type Row = (u16, Option<&'static [u8]>, Option<Rest>, &'static str);

#[derive(Clone, Copy, Debug, PartialEq, Eq)]
enum Rest {
    Id,
    Number(i64),
    Row,
}

fn args(alloc: Global, first: Option<&[u8]>, rest: Option<Rest>) -> Result<Vec<Value>, Fail> {
    let mut values = Vec::new(alloc);
    if let Some(bytes) = first {
        values.push(word(alloc, bytes)?)?;
    }
    match rest {
        Some(Rest::Id) => values.push(Value::Ref(1))?,
        Some(Rest::Number(number)) => values.push(Value::Int(number))?,
        Some(Rest::Row) => values.push(row(alloc)?)?,
        None => {}
    }
    Ok(values)
}

fn check(rt: &impl Abort, alloc: Global, mut object: Object, rows: &[Row]) -> Result<(), Fail> {
    for row in rows {
        let args = args(alloc, row.1, row.2)?;
        object.says(rt, alloc, row.0, args, row.3)?;
    }
    Ok(())
}

const ID: Option<Rest> = Some(Rest::Id);

#[test]
fn keys_name_objects(rt: HostRuntime) -> Result<(), Fail> {
    let rows: [Row; 12] = [
        (REGISTER, Some(b"n"), ID, "unit"),
        (REGISTER, Some(b"n"), ID, "fault 2"),
        (RESOLVE, Some(b"m"), None, "fault 3"),
        (LIST, None, None, "n"),
        (REGISTER, Some(b"mm"), ID, "unit"),
        (REGISTER, Some(b"m"), ID, "unit"),
        (LIST, None, None, "m mm n"),
        (RESOLVE, Some(b"mm"), None, "place 1"),
        (UNREGISTER, Some(b"mm"), None, "unit"),
        (UNREGISTER, Some(b"mm"), None, "fault 3"),
        (LIST, None, None, "m n"),
        (WHERE, None, None, "fault 11"),
    ];
    let symbols = Object::new(rt.alloc(), SYMBOLS, Vec::new(rt.alloc()));
    check(&rt, rt.alloc(), symbols, &rows)
}

#[test]
fn a_table_is_full(rt: HostRuntime) -> Result<(), Fail> {
    let alloc = rt.alloc();
    let mut symbols = Object::new(alloc, SYMBOLS, Vec::new(alloc));
    for byte in 1u8..101 {
        let key = args(alloc, Some(&[byte]), ID)?;
        symbols.says(&rt, alloc, REGISTER, key, "unit")?;
    }
    let rows: [Row; 6] = [
        (REGISTER, Some(b"zz"), ID, "fault 10"),
        (REGISTER, Some(b"a"), ID, "fault 2"),
        (REGISTER, Some(b""), ID, "fault 11"),
        (
            REGISTER,
            Some(b"123456789012345678901234567890123"),
            ID,
            "fault 11",
        ),
        (
            RESOLVE,
            Some(b"123456789012345678901234567890123"),
            None,
            "fault 3",
        ),
        (REGISTER, Some(b"a"), Some(Rest::Number(1)), "fault 11"),
    ];
    check(&rt, alloc, symbols, &rows)
}

#[test]
fn components_make_objects(rt: HostRuntime) -> Result<(), Fail> {
    let rows: [Row; 11] = [
        (NEW, Some(b"accumulator"), None, "makes 16;place 3"),
        (NEW, Some(b"partition"), Some(Rest::Row), "makes 17;place 3"),
        (NEW, Some(b"promise"), None, "makes 32;place 3"),
        (NEW, Some(b"channel"), None, "makes 34;place 3"),
        (
            NEW,
            Some(b"latch"),
            Some(Rest::Number(1_000_000)),
            "makes 35;place 3",
        ),
        (
            NEW,
            Some(b"barrier"),
            Some(Rest::Number(100)),
            "makes 36;place 3",
        ),
        (NEW, Some(b"latch"), Some(Rest::Number(0)), "fault 11"),
        (NEW, Some(b"barrier"), Some(Rest::Number(101)), "fault 11"),
        (NEW, Some(b"promise"), Some(Rest::Number(1)), "fault 11"),
        (NEW, Some(b"partition"), Some(Rest::Number(1)), "fault 11"),
        (NEW, Some(b"tally"), None, "fault 4"),
    ];
    let components = Object::new(rt.alloc(), COMPONENTS, Vec::new(rt.alloc()));
    check(&rt, rt.alloc(), components, &rows)
}

#[test]
fn localities_are_counted(rt: HostRuntime) -> Result<(), Fail> {
    let rows: [Row; 2] = [(COUNT, None, None, "3"), (LIST, None, None, "fault 11")];
    let values = vec![in rt.alloc(); Value::Int(3)]?;
    let localities = Object::new(rt.alloc(), LOCALITIES, values);
    check(&rt, rt.alloc(), localities, &rows)
}

// What the values of a kind's state show, written again as values.
fn shown(alloc: Global, kind: u32, value: Value) -> Result<Values, Fail> {
    let object = Object::new(alloc, kind, vec![in alloc; value]?);
    Ok(content_in(alloc, 3, kind, &object.state)?.into_values(alloc)?)
}

#[test]
fn numbers_are_shown(rt: HostRuntime) -> Result<(), Fail> {
    let alloc = rt.alloc();
    let number = shown(alloc, ACCUMULATOR, Value::Int(-7))?;
    assert!(&rt;
        matches!(number.as_slice(), [Value::Int(-7)]),
        "an accumulator"
    );
    let numbers = shown(alloc, PARTITION, row(alloc)?)?;
    let are_shown = match numbers.as_slice() {
        [Value::Ints(list)] => list.as_slice() == [4, 5, 6].as_slice(),
        _ => false,
    };
    assert!(&rt; are_shown, "a partition");
    Ok(())
}
