use app_compute::act::compute_act;
use app_compute::computing::computing_act;
use app_compute::line::fib_line;
use app_compute::session::MARK;
use app_compute::shape::stencil_line;
use hpx_calls::codes::{DATAFLOW, PARTITION};
use hpx_lco::act::lco_act;
use hpx_names::act::names_act;
use hpx_value::codes::{COMPONENTS, LINE, PLAIN, SESSION, SET};
use hpx_value::exact::Exact;
use hpx_value::gid::{Gid, Gids};
use hpx_value::items::{Items, Text};
use hpx_value::outcome::{Outcome, Reply, SendCont, Sending, Target};
use hpx_value::value::{Act, Cont, State, Value, Values};
use std::alloc::Global;
use std::test::Fail;

// Which pending action is done next.
#[derive(Clone, Copy)]
enum Order {
    Oldest,
    Latest,
    Middle,
}

const ORDERS: [Order; 3] = [Order::Oldest, Order::Latest, Order::Middle];

// A slot of an object.
#[derive(Clone, Copy)]
struct Slot {
    object: Gid,
    number: u32,
}

// What an action sees: ids, and who awaits answers.
#[derive(Drop)]
struct Hand {
    ids: Vec<Gid>,
    slots: Vec<Slot>,
}

// An object that is not a root, or the session.
#[derive(Drop)]
struct Object {
    id: Gid,
    state: State,
}

// Objects, and what is pending; other roots have no state.
#[derive(Drop)]
struct Pool {
    localities: u32,
    objects: Vec<Object>,
    pending: Vec<Act>,
    printed: Vec<u8>,
}

fn blank(alloc: Global) -> State {
    State {
        drawn: 0,
        values: Items::new(alloc),
        conts: Items::new(alloc),
        ids: Items::new(alloc),
    }
}

fn session() -> Gid {
    Gid::new(0, SESSION, 1)
}

fn id_at(ids: &[Gid], place: usize) -> Gid {
    match ids.get(place) {
        Some(id) => *id,
        None => session(),
    }
}

// An object of a kind that is made here, or a root.
fn id_of(kind: u32, here: u32, number: u64) -> Gid {
    if here == u32::MAX || number == 0 {
        return session();
    }
    match kind {
        COMPONENTS => Gid::new(here, COMPONENTS, number),
        PLAIN => Gid::new(here, PLAIN, number),
        PARTITION => Gid::new(here, PARTITION, number),
        _ => Gid::new(here, DATAFLOW, number),
    }
}

// The hand of an action on an object in a state.
fn hand_of(alloc: Global, state: &State, action: &Act, made: &[Gid]) -> Result<Hand, Fail> {
    let mut ids = Vec::new(alloc);
    ids.extend_from_slice(state.ids.as_slice())?;
    ids.extend_from_slice(action.ids.as_slice())?;
    ids.extend_from_slice(made)?;
    let mut slots = Vec::new(alloc);
    for cont in state.conts.as_slice() {
        slots.push(Slot {
            object: id_at(state.ids.as_slice(), usize::from(cont.place)),
            number: cont.slot,
        })?;
    }
    if let Some(cont) = action.cont {
        slots.push(Slot {
            object: id_at(action.ids.as_slice(), usize::from(cont.place)),
            number: cont.slot,
        })?;
    }
    Ok(Hand { ids, slots })
}

// Values whose Refs are numbered from one on, behind ids that are told.
fn renumbered(
    alloc: Global,
    hand: &Hand,
    first: u16,
    values: &Values,
    ids: &mut Gids,
) -> Result<Values, Fail> {
    let mut new = Items::new(alloc);
    let mut next = first;
    for value in values.as_slice() {
        match value {
            Value::Ref(place) => {
                ids.push(id_at(hand.ids.as_slice(), usize::from(*place)))?;
                new.push(Value::Ref(next))?;
                next = next.wrapping_add(1);
            }
            _ => new.push(value.duplicate(alloc)?)?,
        }
    }
    Ok(new)
}

// An action whose answer goes to a slot, if to any.
fn message(
    alloc: Global,
    hand: &Hand,
    target: Gid,
    code: u16,
    args: &Values,
    slot: Option<Slot>,
) -> Result<Act, Fail> {
    let mut ids = Items::new(alloc);
    ids.push(target)?;
    let args = renumbered(alloc, hand, 1, args, &mut ids)?;
    let mut cont = None;
    if let Some(Slot { object, number }) = slot {
        if let Ok(place) = u16::try_from(ids.len()) {
            cont = Some(Cont {
                place,
                slot: number,
            });
        }
        ids.push(object)?;
    }
    Ok(Act {
        origin: 0,
        serial: 1,
        code,
        args,
        cont,
        ids,
    })
}

// The state that an outcome leaves.
fn left(alloc: Global, outcome: &Outcome, hand: &Hand) -> Result<State, Fail> {
    let mut state = blank(alloc);
    state.drawn = outcome.state.drawn;
    state.values = renumbered(alloc, hand, 0, &outcome.state.values, &mut state.ids)?;
    for number in outcome.state.conts.as_slice() {
        let place = u16::try_from(state.ids.len());
        if let (Some(slot), Ok(place)) = (hand.slots.get(*number as usize), place) {
            state.conts.push(Cont {
                place,
                slot: slot.number,
            })?;
            state.ids.push(slot.object)?;
        }
    }
    Ok(state)
}

// Where the answer to a send goes.
fn slot_for(cont: SendCont, hand: &Hand, made: &[Gid]) -> Option<Slot> {
    match cont {
        SendCont::Nothing => None,
        SendCont::Own(number) => hand.slots.get(usize::from(number)).copied(),
        SendCont::Made { make, slot } => Some(Slot {
            object: id_at(made, usize::from(make)),
            number: slot,
        }),
        SendCont::Here { slot } => Some(Slot {
            object: session(),
            number: slot,
        }),
    }
}

impl Pool {
    fn next(&mut self, order: Order) -> Option<Act> {
        let count = self.pending.len();
        if count == 0 {
            return None;
        }
        let index = match order {
            Order::Oldest => 0,
            Order::Latest => count - 1,
            Order::Middle => count / 2,
        };
        Some(self.pending.remove(index))
    }

    fn state(&self, alloc: Global, target: Gid) -> Result<State, Fail> {
        for object in self.objects.as_slice() {
            if object.id == target {
                return Ok(object.state.duplicate(alloc)?);
            }
        }
        Ok(blank(alloc))
    }

    fn outcome(
        &self,
        alloc: Global,
        target: Gid,
        state: &State,
        action: &Act,
    ) -> Result<Outcome, Fail> {
        let (here, n) = (target.home(), self.localities);
        Ok(match target.kind() {
            SESSION if 1 <= n => computing_act(alloc, 0, n, state, action)?,
            PLAIN if here < n => compute_act(alloc, PLAIN, here, n, state, action)?,
            PARTITION if here < n => compute_act(alloc, PARTITION, here, n, state, action)?,
            COMPONENTS => names_act(alloc, COMPONENTS, here, n, state, action)?,
            _ => lco_act(alloc, DATAFLOW, here, state, action)?,
        })
    }

    // The objects that are made.
    fn make(&mut self, alloc: Global, here: u32, outcome: &Outcome) -> Result<Vec<Gid>, Fail> {
        let mut made = Vec::new(alloc);
        for make in outcome.makes.as_slice() {
            let id = id_of(make.kind, here, self.objects.len() as u64);
            let mut state = blank(alloc);
            state.values = make.values.duplicate(alloc)?;
            self.objects.push(Object { id, state })?;
            made.push(id)?;
        }
        Ok(made)
    }

    fn keep(&mut self, target: Gid, state: State) {
        for index in 0..self.objects.len() {
            if let Some(object) = self.objects.get_mut(index) {
                if object.id == target {
                    object.state = state;
                    return;
                }
            }
        }
    }

    fn send(
        &mut self,
        alloc: Global,
        sending: &Sending,
        hand: &Hand,
        made: &[Gid],
    ) -> Result<(), Fail> {
        let to = match sending.target {
            Target::Place(place) => id_at(hand.ids.as_slice(), usize::from(place)),
            Target::Root { kind, at } => id_of(kind, at, 1),
        };
        let slot = slot_for(sending.cont, hand, made);
        let act = message(alloc, hand, to, sending.code, &sending.args, slot)?;
        self.pending.push(act)?;
        Ok(())
    }

    fn reply(&mut self, alloc: Global, reply: &Reply, hand: &Hand) -> Result<(), Fail> {
        if let Some(slot) = hand.slots.get(usize::from(reply.cont)) {
            let mut args = Items::new(alloc);
            args.push(Value::Int(i64::from(slot.number)))?;
            args.push(reply.value.duplicate(alloc)?)?;
            let act = message(alloc, hand, slot.object, SET, &args, None)?;
            self.pending.push(act)?;
        }
        Ok(())
    }

    fn act(&mut self, alloc: Global, action: Act) -> Result<(), Fail> {
        let target = id_at(action.ids.as_slice(), 0);
        let state = self.state(alloc, target)?;
        let outcome = self.outcome(alloc, target, &state, &action)?;
        let made = self.make(alloc, target.home(), &outcome)?;
        let hand = hand_of(alloc, &state, &action, made.as_slice())?;
        self.keep(target, left(alloc, &outcome, &hand)?);
        for sending in outcome.sends.as_slice() {
            self.send(alloc, sending, &hand, made.as_slice())?;
        }
        for reply in outcome.replies.as_slice() {
            self.reply(alloc, reply, &hand)?;
        }
        for print in outcome.prints.as_slice() {
            self.printed.extend_from_slice(print.as_slice())?;
        }
        Ok(())
    }
}

// What a run prints on a line.
fn run(alloc: Global, localities: u32, asked: &Text, order: Order) -> Result<Vec<u8>, Fail> {
    let mut line = Items::new(alloc);
    line.push(MARK)?;
    for byte in asked.as_slice() {
        line.push(*byte)?;
    }
    let mut args = Items::new(alloc);
    args.push(Value::Text(line))?;
    let nobody = Hand {
        ids: Vec::new(alloc),
        slots: Vec::new(alloc),
    };
    let first = message(alloc, &nobody, session(), LINE, &args, None)?;
    let mut pool = Pool {
        localities,
        objects: vec![in alloc;
            Object {
                id: session(),
                state: blank(alloc)
            },
        ]?,
        pending: vec![in alloc; first]?,
        printed: Vec::new(alloc),
    };
    for _ in 0..100_000 {
        match pool.next(order) {
            Some(action) => pool.act(alloc, action)?,
            None => break,
        }
    }
    Ok(pool.printed)
}

#[test]
fn fib_prints_one_line_in_each_order(rt: HostRuntime) -> Result<(), Fail> {
    let alloc = rt.alloc();
    let rows: [(u32, u32, u32, &[u8]); 7] = [
        (1, 0, 2, b"fibonacci(0) == 0\n"),
        (1, 1, 2, b"fibonacci(1) == 1\n"),
        (1, 2, 2, b"fibonacci(2) == 1\n"),
        (1, 10, 2, b"fibonacci(10) == 55\n"),
        (4, 12, 2, b"fibonacci(12) == 144\n"),
        (3, 20, 15, b"fibonacci(20) == 6765\n"),
        (2, 92, 92, b"fibonacci(92) == 7540113804746346429\n"),
    ];
    for (localities, number, threshold, want) in rows {
        let line = fib_line(alloc, number, threshold)?;
        for order in ORDERS {
            let text = run(alloc, localities, &line, order)?;
            assert!(rt; text.as_slice() == want);
        }
    }
    Ok(())
}

// Localities, points, parts, steps, and the rows as they were counted by hand.
type Ring = (u32, u32, u32, u32, &'static [u8]);

const RINGS: [Ring; 8] = [
    (2, 4, 2, 2, b"2 1 2 1\n1 2 1 2\n"),
    (1, 4, 1, 2, b"2 1 2 1\n1 2 1 2\n"),
    (3, 4, 4, 2, b"2 1 2 1\n1 2 1 2\n"),
    (2, 4, 2, 0, b""),
    (2, 1, 1, 3, b"0\n0\n0\n"),
    (4, 2, 2, 2, b"1 0\n0 1\n"),
    (2, 3, 3, 3, b"1 1 0\n0 0 1\n0 0 0\n"),
    (5, 6, 3, 2, b"3 1 2 3 4 2\n1 2 2 3 2 3\n"),
];

#[test]
fn a_ring_prints_its_rows_in_each_order(rt: HostRuntime) -> Result<(), Fail> {
    let alloc = rt.alloc();
    for (localities, points, parts, steps, want) in RINGS {
        let line = stencil_line(alloc, points, parts, steps)?;
        for order in ORDERS {
            let text = run(alloc, localities, &line, order)?;
            assert!(rt; text.as_slice() == want);
        }
    }
    Ok(())
}
