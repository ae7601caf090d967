//! A commit, planned: the state that it leaves, what is due then, and the ids that are given up.
ghost use Rattle.std.specs.Prelude.{◌≡◌, ◌<◌, ◌≤◌, ◌+◌, ◌^◌, ◌∷◌, ◌++◌, [], ℕ, IfOk, OnOk, length};
ghost use Rattle.hpx_value.specs.Hands.{state_after};
ghost use Rattle.hpx_value.specs.Riders.{due_with, mentions_with};
ghost use Rattle.hpx_value.specs.declared.outcome.Due.TheVariants.{Message as MessageDue, Print as PrintDue};
ghost use Rattle.hpx_commit.specs.Deals.{managed_places, dealt, AllLast, AreWithin, unnamed, filled, unused, filled_due, unused_due, places_named};

use crate::deal::{deal, fill, managed_places, unnamed};
use crate::hand::Hand;
use crate::mentions::mentions_with;
use hpx_value::gid::Gid;
use hpx_value::memory::OutOfMemory;
use hpx_value::outcome::{Due, Outcome};
use hpx_value::value::{Act, Message, State};
use std::alloc::Global;
use std::collections::VecDeque;

/// One message or print, with what was dealt.
fn fill_one_due(alloc: Global, due: Due, dealt: &mut VecDeque<Gid>) -> Result<Due, OutOfMemory>
    ensures due { IfOk result (λ out. filled_due (due ∷ []) dealt.old.items ≡ out ∷ []) }
    ensures rest { OnOk result (dealt.new.items ≡ unused_due due dealt.old.items) }
{
    match due {
        Due::Message(
            Message {
                code,
                args,
                cont,
                ids,
            },
        ) => Ok(Due::Message(Message {
            code,
            args,
            cont,
            ids: fill(alloc, ids.as_slice(), dealt)?,
        })),
        Due::Print(bytes) => Ok(Due::Print(bytes)),
    }
}

/// The first of what is due, with what was dealt, goes to the end of a list.
fn fill_next(
    alloc: Global,
    rest: &mut VecDeque<Due>,
    dealt: &mut VecDeque<Gid>,
    out: &mut VecDeque<Due>,
) -> Result<(), OutOfMemory>
    requires some { 0 < length rest.old.items }
    ensures all { OnOk result (out.new.items ++ filled_due rest.new.items dealt.new.items ≡ out.old.items ++ filled_due rest.old.items dealt.old.items) }
    ensures fewer { OnOk result (length rest.new.items + 1 ≡ length rest.old.items) }
{
    if let Some(next) = rest.pop_front() {
        out.push_back(fill_one_due(alloc, next, dealt)?)?;
    }
    Ok(())
}

/// What is due, with what was dealt.
fn fill_due(
    alloc: Global,
    due: Vec<Due>,
    dealt: &mut VecDeque<Gid>,
) -> Result<VecDeque<Due>, OutOfMemory>
    ensures { IfOk result (λ out. out.items ≡ filled_due due.items dealt.old.items) }
{
    let mut rest = VecDeque::from_vec(due);
    let mut out = VecDeque::new(alloc);
    while !rest.is_empty() {
        fill_next(alloc, &mut rest, dealt, &mut out)?;
    }
    Ok(out)
}

/// What a commit leaves.
#[derive(Drop)]
pub struct Plan {
    /// The new state of the target.
    pub state: State,
    /// Messages and prints, in order.
    pub due: VecDeque<Due>,
    /// The ids that nobody names.
    pub ups: Vec<Gid>,
}

/// The places of managed objects that an outcome names, in the order in which a commit takes them.
pub fn places_named(alloc: Global, hand: &Hand, outcome: &Outcome) -> Result<Vec<u32>, OutOfMemory>
    requires state { length hand.now.state.now.ids ≤ 65536 }
    requires action { length hand.now.action.now.ids ≤ 65536 }
    ensures { IfOk result (λ places. places.items ≡ places_named hand.now.state.now hand.now.action.now hand.now.made.now outcome.now) }
{
    let all = mentions_with(alloc, hand.state(), hand.action(), outcome)?;
    managed_places(alloc, hand.ids(), all.as_slice())
}

/// Plans a commit from a stock of the hand, where each of its ids lasts for those who name it.
pub fn plan_stock(
    alloc: Global,
    hand: &Hand,
    outcome: &Outcome,
    ids: &[Gid],
    places: &[u32],
) -> Result<Plan, OutOfMemory>
    requires few { length ids.now < 2 ^ 32 }
    requires within { AreWithin ids.now places.now }
    requires lasts { AllLast ids.now places.now }
    ensures state { IfOk result (λ plan. plan.state ≡ record (state_after hand.now.state.now hand.now.action.now hand.now.made.now outcome.now) {
      ids = filled (state_after hand.now.state.now hand.now.action.now hand.now.made.now outcome.now).ids (dealt ids.now places.now);
    }) }
    ensures due { IfOk result (λ plan. plan.due.items ≡ filled_due (due_with hand.now.state.now hand.now.action.now hand.now.made.now outcome.now)
        (unused (state_after hand.now.state.now hand.now.action.now hand.now.made.now outcome.now).ids (dealt ids.now places.now))) }
    ensures ups { IfOk result (λ plan. plan.ups.items ≡ unnamed ids.now places.now) }
{
    let mut dealt = deal(alloc, ids, places)?;
    let State {
        drawn,
        values,
        conts,
        ids: named,
    } = hand.state_left(alloc, outcome)?;
    let kept = fill(alloc, named.as_slice(), &mut dealt)?;
    let due = fill_due(alloc, hand.due(alloc, outcome)?, &mut dealt)?;
    Ok(Plan {
        state: State {
            drawn,
            values,
            conts,
            ids: kept,
        },
        due,
        ups: unnamed(alloc, ids, places)?,
    })
}
