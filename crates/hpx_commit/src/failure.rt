//! What an action leaves that could get no credit: its object stays as it is, its continuation is answered, and its ids are
//! given up.
ghost use Rattle.std.specs.Prelude.{◌≡◌, ◌+◌, ◌≤◌, ◌++◌, IfOk, length};
ghost use Rattle.std.specs.List.{filter};
ghost use Rattle.hpx_commit.specs.Deals.{is_managed};
ghost use Rattle.hpx_commit.specs.Failures.{action_ids, state_failed, due_failed, unanswered, ups_failed};

use crate::deal::is_managed;
use crate::hand::{answer, id_at, slot_at};
use crate::plan::Plan;
use hpx_value::codes::SESSION;
use hpx_value::exact::Exact;
use hpx_value::gid::Gid;
use hpx_value::items::Items;
use hpx_value::memory::OutOfMemory;
use hpx_value::outcome::Due;
use hpx_value::value::{Act, Cont, State, Value};
use std::alloc::Global;
use std::collections::VecDeque;

/// The fault of an action that could get no credit.
const CREDIT_LIMIT: u8 = 5;

/// A state with other ids.
pub fn state_with(alloc: Global, state: &State, ids: &[Gid]) -> Result<State, OutOfMemory>
    ensures { IfOk result (λ new. new ≡ record state.now { ids = ids.now }) }
{
    Ok(State {
        drawn: state.drawn,
        values: state.values.duplicate(alloc)?,
        conts: state.conts.duplicate(alloc)?,
        ids: Items::from_vec(Vec::from_slice(alloc, ids)?),
    })
}

/// An action with other ids.
pub fn action_with(alloc: Global, action: &Act, ids: &[Gid]) -> Result<Act, OutOfMemory>
    ensures { IfOk result (λ new. new ≡ record action.now { ids = ids.now }) }
{
    Ok(Act {
        origin: action.origin,
        serial: action.serial,
        code: action.code,
        args: action.args.duplicate(alloc)?,
        cont: action.cont,
        ids: Items::from_vec(Vec::from_slice(alloc, ids)?),
    })
}

/// What is due where an action with these ids and this continuation fails.
fn due_failed(alloc: Global, ids: &[Gid], cont: Option<Cont>) -> Result<VecDeque<Due>, OutOfMemory>
    ensures { IfOk result (λ due. due.items ≡ due_failed ids.now cont) }
{
    let mut due = VecDeque::new(alloc);
    if let Some(cont) = cont {
        let fault = Value::Fault(CREDIT_LIMIT);
        due.push_back(Due::Message(answer(alloc, &[], slot_at(ids, cont), &fault)?))?;
    }
    if id_at(ids, 0).kind() == SESSION {
        let text = Vec::from_slice(alloc, b"error: credit limit\n")?;
        due.push_back(Due::Print(Items::from_vec(text)))?;
    }
    Ok(due)
}

/// The ids but the one that the answer to a continuation takes.
fn unanswered(alloc: Global, ids: &[Gid], cont: Option<Cont>) -> Result<Vec<Gid>, OutOfMemory>
    ensures { IfOk result (λ rest. rest.items ≡ unanswered ids.now cont) }
{
    let mut rest = Vec::from_slice(alloc, ids)?;
    if let Some(cont) = cont {
        let place = cont.place as usize;
        if place < rest.len() {
            rest.remove(place);
        }
    }
    Ok(rest)
}

/// The ids of managed objects among these.
fn managed(alloc: Global, ids: &[Gid]) -> Result<Vec<Gid>, OutOfMemory>
    ensures { IfOk result (λ some. some.items ≡ filter is_managed ids.now) }
{
    let mut some = Vec::new(alloc);
    for id in ids {
        if is_managed(*id) {
            some.push(*id)?;
        }
    }
    Ok(some)
}

/// The ids that are given up where an action with these ids and this continuation fails, and these halves were taken ahead.
fn ups_failed(
    alloc: Global,
    ids: &[Gid],
    cont: Option<Cont>,
    halves: &[Gid],
) -> Result<Vec<Gid>, OutOfMemory>
    ensures { IfOk result (λ ups. ups.items ≡ filter is_managed (unanswered ids.now cont ++ halves.now)) }
{
    let mut all = unanswered(alloc, ids, cont)?;
    all.extend_from_slice(halves)?;
    managed(alloc, all.as_slice())
}

/// Plans what an action leaves that fails, where its hand has these ids now and so many objects were to be made.
pub fn plan_failure(
    alloc: Global,
    state: &State,
    action: &Act,
    makes: usize,
    ids: &[Gid],
) -> Result<Plan, OutOfMemory>
    requires { length state.now.ids + length action.now.ids + makes ≤ length ids.now }
    ensures state { IfOk result (λ plan. plan.state ≡ state_failed state.now ids.now) }
    ensures due { IfOk result (λ plan. plan.due.items ≡ due_failed (action_ids state.now action.now ids.now) action.now.cont) }
    ensures ups { IfOk result (λ plan. plan.ups.items ≡ ups_failed state.now action.now makes ids.now) }
{
    let first = state.ids.len();
    let last = first + action.ids.len();
    let own = &ids[first..last];
    let halves = &ids[last + makes..];
    let state = state_with(alloc, state, &ids[..first])?;
    let due = due_failed(alloc, own, action.cont)?;
    let ups = ups_failed(alloc, own, action.cont, halves)?;
    Ok(Plan { state, due, ups })
}
