ghost use Rattle.std.specs.Prelude.{◌≡◌};

use hpx_value::codes::*;
use hpx_value::exact::Exact;
use hpx_value::gid::Gid;
use hpx_value::items::{Bytes, Ints, Items, Numbers, Text, Texts};
use hpx_value::memory::OutOfMemory;
use hpx_value::outcome::{SendCont, Target};
use hpx_value::profile::Profile;
use hpx_value::value::{Act, Cont, State, Value, Values};
use std::alloc::{AllocError, Global};
use std::test::Fail;

/// The id with this home, kind, number and credit, if there is one.
fn id_with(home: u32, kind: u32, number: u64, log: Option<u8>) -> Option<Gid> {
    if home == u32::MAX || kind == 0 || kind >= 0x10_0000 || number == 0 {
        return None;
    }
    let plain = Gid::new(home, kind, number);
    match log {
        Some(log) if log > 31 => None,
        Some(log) => Some(plain.with_log(log)),
        None => Some(plain),
    }
}

/// An id by its own halves, which give it back.
fn read_back(id: Gid) -> Option<Gid>
    ensures { result ≡ Some id }
{
    Gid::read(id.msb, id.lsb)
}

fn text(alloc: Global, bytes: &[u8]) -> Result<Text, AllocError> {
    Ok(Text::from_vec(Vec::from_slice(alloc, bytes)?))
}

/// A value of each sort, and others that differ a little.
fn values(alloc: Global) -> Result<Values, OutOfMemory> {
    let mut values = Values::new(alloc);
    values.push(Value::Unit)?;
    values.push(Value::Flag(false))?;
    values.push(Value::Flag(true))?;
    values.push(Value::Int(1))?;
    values.push(Value::Int(-1))?;
    values.push(Value::Text(text(alloc, b"")?))?;
    values.push(Value::Text(text(alloc, b"hi")?))?;
    values.push(Value::Ref(1))?;
    values.push(Value::Ref(2))?;
    values.push(Value::Fault(1))?;
    values.push(Value::Fault(11))?;
    values.push(Value::Ints(Ints::new(alloc)))?;
    values.push(Value::Ints(Ints::from_vec(Vec::from_slice(alloc, &[1, i64::MIN])?)))?;
    Ok(values)
}

/// A state with an id and a continuation.
fn state(alloc: Global, drawn: u32, slot: u32, id: Gid) -> Result<State, OutOfMemory> {
    let mut conts = Items::new(alloc);
    conts.push(Cont { place: 0, slot })?;
    let mut ids = Items::new(alloc);
    ids.push(id)?;
    Ok(State {
        drawn,
        values: values(alloc)?,
        conts,
        ids,
    })
}

/// An action on an object, with a continuation at times.
fn act(alloc: Global, name: (u16, u64), cont: Option<Cont>, id: Gid) -> Result<Act, OutOfMemory> {
    let (origin, serial) = name;
    let mut ids = Items::new(alloc);
    ids.push(id)?;
    Ok(Act {
        origin,
        serial,
        code: ADD,
        args: values(alloc)?,
        cont,
        ids,
    })
}

/// Whether each value is the same as its copy, and as no other of the list.
fn are_told_apart<T: Exact>(alloc: Global, xs: &[T]) -> Result<bool, OutOfMemory> {
    for (i, x) in xs.iter().enumerate() {
        let copy = x.duplicate(alloc)?;
        for (j, y) in xs.iter().enumerate() {
            if copy.same(y) != (i == j) {
                return Ok(false);
            }
        }
    }
    Ok(true)
}

#[test]
fn ids_have_their_halves(rt: HostRuntime) -> Result<(), Fail> {
    for (home, kind, number, log, msb) in [
        (0, 1, 1, None, 0x0000_0001_0000_0003),
        (1, 6, 1, None, 0x0000_0002_0000_000d),
        (0, 7, 1, None, 0x0000_0001_0000_000f),
        (1, 16, 1, Some(0), 0x0000_0002_4000_0021),
        (1, 16, 1, Some(30), 0x0000_0002_5e00_0021),
        (1, 16, 7, Some(31), 0x0000_0002_5f00_0021),
        (1, 17, 255, Some(0), 0x0000_0002_4000_0023),
        (1, 31, 1, Some(30), 0x0000_0002_5e00_003f),
        (
            0xffff_fffe,
            0xf_ffff,
            u64::MAX,
            Some(31),
            0xffff_ffff_5f1f_ffff,
        ),
    ] {
        let id = id_with(home, kind, number, log).ok_or("an id")?;
        assert_eq!(rt; id.msb, msb);
        assert_eq!(rt; id.lsb, number);
        assert_eq!(rt; Gid::read(msb, number), Some(id), "at {msb:x}");
        assert_eq!(rt; read_back(id), Some(id), "at {msb:x}");
        assert_eq!(rt; id.home(), home);
        assert_eq!(rt; id.kind(), kind);
        assert_eq!(rt; id.number(), number);
        assert_eq!(rt; id.log(), log, "at {msb:x}");
        assert_eq!(rt; Some(id.bare()), id_with(home, kind, number, None));
    }
    Ok(())
}

#[test]
fn other_halves_are_no_id(rt: HostRuntime) {
    for (msb, lsb) in [
        (0x0000_0002_5e00_0021, 0),
        (0x0000_0000_5e00_0021, 1),
        (0x0000_0002_5e00_0001, 1),
        (0x0000_0002_5e00_0020, 1),
        (0x0000_0002_0300_0021, 1),
        (0x0000_0002_de00_0021, 1),
        (0x0000_0002_7e00_0021, 1),
        (0x0000_0002_5e80_0021, 1),
        (0x0000_0002_5e20_0021, 1),
        (0, 0),
        (u64::MAX, u64::MAX),
    ] {
        assert_eq!(rt; Gid::read(msb, lsb), None, "at {msb:x}");
    }
}

#[test]
fn credits_do_not_change_what_an_id_names(rt: HostRuntime) {
    let id = Gid::new(1, 16, 1);
    assert_eq!(rt; id.with_log(30).with_log(3).msb, 0x0000_0002_4300_0021);
    assert_eq!(rt; id.with_log(30).bare(), id);
    assert!(rt; id.with_log(30).names_same(id.with_log(29)));
    assert!(rt; !id.with_log(30).same(&id.with_log(29)));
    for other in [Gid::new(2, 16, 1), Gid::new(1, 17, 1), Gid::new(1, 16, 2)] {
        assert!(rt; !id.names_same(other), "{other:?}");
        assert!(rt; !id.same(&other), "{other:?}");
    }
}

#[test]
fn copies_are_the_same(rt: HostRuntime) -> Result<(), Fail> {
    let alloc = rt.alloc();
    assert!(rt; are_told_apart(alloc, &[0u8, 1, 255])?);
    assert!(rt; are_told_apart(alloc, &[0, 1, u32::MAX])?);
    assert!(rt; are_told_apart(alloc, &[0, i64::MIN, i64::MAX])?);
    let id = Gid::new(1, 16, 1);
    assert!(rt;
        are_told_apart(
            alloc,
            &[id, id.with_log(0), id.with_log(1), Gid::new(0, 16, 1)]
        )?
    );
    let conts = [
        Cont { place: 1, slot: 2 },
        Cont { place: 2, slot: 2 },
        Cont { place: 1, slot: 1 },
    ];
    assert!(rt; are_told_apart(alloc, &conts)?);
    assert!(rt; are_told_apart(alloc, values(alloc)?.as_slice())?);
    let mut texts = Texts::new(alloc);
    texts.push(text(alloc, b"")?)?;
    texts.push(text(alloc, b"hi")?)?;
    texts.push(text(alloc, b"ho")?)?;
    texts.push(text(alloc, b"hi ")?)?;
    assert!(rt; are_told_apart(alloc, texts.as_slice())?);
    Ok(())
}

#[test]
fn states_are_told_apart(rt: HostRuntime) -> Result<(), Fail> {
    let alloc = rt.alloc();
    let id = Gid::new(1, 16, 1);
    let mut states = Items::new(alloc);
    states.push(state(alloc, 0, 0, id)?)?;
    states.push(state(alloc, 1, 0, id)?)?;
    states.push(state(alloc, 0, 1, id)?)?;
    states.push(state(alloc, 0, 0, id.with_log(8))?)?;
    let mut bare = state(alloc, 0, 0, id)?;
    bare.values = Values::new(alloc);
    states.push(bare)?;
    assert!(rt; are_told_apart(alloc, states.as_slice())?);
    Ok(())
}

#[test]
fn actions_are_told_apart(rt: HostRuntime) -> Result<(), Fail> {
    let alloc = rt.alloc();
    let id = Gid::new(1, 16, 1);
    let cont = Some(Cont { place: 1, slot: 0 });
    let mut acts = Items::new(alloc);
    acts.push(act(alloc, (0, 1), cont, id)?)?;
    acts.push(act(alloc, (1, 1), cont, id)?)?;
    acts.push(act(alloc, (0, 2), cont, id)?)?;
    acts.push(act(alloc, (0, 1), None, id)?)?;
    acts.push(act(alloc, (0, 1), cont, id.with_log(8))?)?;
    let mut query = act(alloc, (0, 1), cont, id)?;
    query.code = QUERY;
    acts.push(query)?;
    let mut bare = act(alloc, (0, 1), cont, id)?;
    bare.args = Values::new(alloc);
    acts.push(bare)?;
    assert!(rt; are_told_apart(alloc, acts.as_slice())?);
    Ok(())
}

#[test]
fn items_keep_their_order(rt: HostRuntime) -> Result<(), Fail> {
    let alloc = rt.alloc();
    let mut numbers = Numbers::new(alloc);
    assert!(rt; numbers.is_empty());
    assert_eq!(rt; numbers.len(), 0);
    numbers.push(7)?;
    numbers.push(5)?;
    numbers.push(7)?;
    assert!(rt; !numbers.is_empty());
    assert_eq!(rt; numbers.len(), 3);
    assert_eq!(rt; numbers.as_slice(), [7, 5, 7].as_slice());
    let copy = numbers.duplicate(alloc)?;
    assert_eq!(rt; copy.into_vec().as_slice(), [7, 5, 7].as_slice());
    let mut queue = numbers.into_deque();
    assert_eq!(rt; queue.pop_front(), Some(7));
    assert_eq!(rt; queue.pop_front(), Some(5));
    let bytes = Bytes::from_vec(Vec::from_slice(alloc, b"hi")?);
    assert_eq!(rt; bytes.as_slice(), b"hi".as_slice());
    Ok(())
}

#[test]
fn profiles_have_their_ranges(rt: HostRuntime) {
    for (credit_log, credit_limit, cache, want) in [
        (8, 256, 1, true),
        (30, 0x10_0000_0000_0000_0000_0000_0000, 4096, true),
        (31, 0x8000_0000, 64, true),
        (7, 256, 1, false),
        (32, 0x4000_0000_0000_0000, 64, false),
        (8, 255, 1, false),
        (31, 0x7fff_ffff, 64, false),
        (30, 0x10_0000_0000_0000_0000_0000_0001, 64, false),
        (30, 0x4000_0000, 0, false),
        (30, 0x4000_0000, 4097, false),
    ] {
        let profile = Profile {
            credit_log,
            credit_limit,
            cache,
        };
        assert_eq!(rt; profile.is_valid(), want, "{profile:?}");
    }
}

/// An answer with a number and the rider at a place of its ids, and with a continuation behind.
fn answer(alloc: Global, rider: u16) -> Result<Act, OutOfMemory> {
    let mut args = Items::new(alloc);
    args.push(Value::Int(4))?;
    args.push(Value::Int(9))?;
    args.push(Value::Ref(rider))?;
    let mut ids = Items::new(alloc);
    for number in 1..=3 {
        ids.push(Gid::new(0, 16, number).with_log(5))?;
    }
    Ok(Act {
        origin: 1,
        serial: 7,
        code: SET,
        args,
        cont: Some(Cont { place: 2, slot: 8 }),
        ids,
    })
}

#[test]
fn an_answer_is_seen_without_its_rider(rt: HostRuntime) -> Result<(), Fail> {
    let alloc = rt.alloc();
    let act = answer(alloc, 1)?;
    assert!(rt; act.rider() == Some(Gid::new(0, 16, 2).with_log(5)));
    let plain = act.plain(alloc)?;
    assert_eq!(rt; (plain.origin, plain.serial, plain.code), (1, 7, SET));
    assert_eq!(rt; plain.args.len(), 2);
    assert!(rt; plain.args.as_slice()[1].same(&Value::Int(9)));
    assert!(rt; plain.cont == Some(Cont { place: 1, slot: 8 }));
    let ids = [
        Gid::new(0, 16, 1).with_log(5),
        Gid::new(0, 16, 3).with_log(5),
    ];
    assert!(rt; plain.ids.as_slice() == ids.as_slice());
    assert!(rt; plain.rider() == None);
    Ok(())
}

#[test]
fn other_actions_are_seen_whole(rt: HostRuntime) -> Result<(), Fail> {
    let alloc = rt.alloc();
    let target = answer(alloc, 0)?;
    assert!(rt; target.rider() == None);
    assert!(rt; target.plain(alloc)?.same(&target));
    let call = act(alloc, (1, 2), None, Gid::new(0, 16, 1))?;
    assert!(rt; call.rider() == None);
    assert!(rt; call.plain(alloc)?.same(&call));
    Ok(())
}

#[test]
fn credits_have_worth(rt: HostRuntime) {
    let id = Gid::new(1, 16, 1);
    assert_eq!(rt; id.credit(), 0);
    assert_eq!(rt; id.with_log(0).credit(), 1);
    assert_eq!(rt; id.with_log(30).credit(), 1_073_741_824);
    assert_eq!(rt; id.with_log(31).credit(), 2_147_483_648);
}

#[test]
fn codes_are_those_of_frames(rt: HostRuntime) {
    let roots = [SESSION, SYMBOLS, COMPONENTS, LOCALITIES, SHELF, PLAIN];
    assert_eq!(rt; roots, [1, 2, 3, 4, 5, 7]);
    assert_eq!(rt; [FIRST_MANAGED, LAST_MOVABLE, LAST_MANAGED], [16, 31, 63]);
    assert_eq!(rt; [MOVE, WHERE, SET, LINE], [1, 2, 3, 4]);
    assert_eq!(rt; [ADD, QUERY, RESET], [16, 17, 18]);
    assert_eq!(rt; [OVERFLOW, NO_ACTION], [1, 11]);
}

#[test]
fn texts_are_plain(rt: HostRuntime) -> Result<(), Fail> {
    let alloc = rt.alloc();
    let error = OutOfMemory::from(AllocError);
    assert_eq!(rt; format!(in alloc; "{error}")?.as_str(), "out of memory");
    assert_eq!(rt; format!(in alloc; "{error:?}")?.as_str(), "OutOfMemory");
    let id = Gid::new(1, 16, 1);
    assert_eq!(rt;
        format!(in alloc; "{id:?}")?.as_str(),
        "Gid { msb: 8589934625, lsb: 1 }"
    );
    let target = Target::Root { kind: PLAIN, at: 1 };
    assert_eq!(rt;
        format!(in alloc; "{target:?}")?.as_str(),
        "Root { kind: 7, at: 1 }"
    );
    let cont = SendCont::Own(2);
    assert_eq!(rt; format!(in alloc; "{cont:?}")?.as_str(), "Own(2)");
    Ok(())
}

#[test]
fn targets_are_compared_as_wholes(rt: HostRuntime) {
    let targets = [
        Target::Place(1),
        Target::Place(2),
        Target::Root { kind: 1, at: 0 },
        Target::Root { kind: 3, at: 0 },
        Target::Root { kind: 3, at: 1 },
    ];
    let conts = [
        SendCont::Nothing,
        SendCont::Own(1),
        SendCont::Made { make: 0, slot: 0 },
        SendCont::Made { make: 0, slot: 1 },
        SendCont::Here { slot: 1 },
    ];
    for i in 0..5 {
        for j in 0..5 {
            assert_eq!(rt; targets[i] == targets[j], i == j, "at {i} and {j}");
            assert_eq!(rt; conts[i] == conts[j], i == j, "at {i} and {j}");
        }
    }
}
