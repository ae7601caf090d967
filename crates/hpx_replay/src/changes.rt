//! What each entry leaves, tokens aside.
ghost use Rattle.std.specs.Prelude.{◌≡◌, ◌≤◌, ◌+◌, ◌^◌, ◌∷◌, ◌++◌, [], ℕ, IfOk, OnOk, Some, false, true, map};
ghost use Rattle.std.specs.List.{find};
ghost use Rattle.hpx_value.specs.Hands.{state_after};
ghost use Rattle.hpx_value.specs.Riders.{plain, due_with};
ghost use Rattle.hpx_value.specs.Profiles.{IsValid};
ghost use Rattle.hpx_journal.specs.Bags.{without, minus};
ghost use Rattle.hpx_journal.specs.Entries.{Rules, name_of, line_act};
ghost use Rattle.hpx_journal.specs.declared.entry.Standing.{Standing};
ghost use Rattle.hpx_journal.specs.declared.entry.Travel.{Travel};
ghost use Rattle.std.specs.Option.{option_to_list};
ghost use Rattle.hpx_journal.specs.Local.{is_act, is_standing, is_travel, refusals_by, tail, due_act, fired_after, done_after, due_after, objects_after, failures_after, leaving, stood};
ghost use Rattle.hpx_journal.specs.declared.local.Local.{Local as Here};
ghost use Rattle.hpx_replay.specs.Spaces.{outcome_in, besides};
ghost use Rattle.hpx_journal.specs.Rows.{Row};

use hpx_commit::hand::Hand;
use hpx_journal::bag::Bag;
use hpx_journal::cargo::{Cargo, failure, line_act, named};
use hpx_journal::entry::{Credit, Event, Name, Recorded, Refusal, Standing, Travel};
use hpx_journal::local::{Local, name_of, target};
use hpx_value::exact::Exact;
use hpx_value::gid::{Gid, Gids};
use hpx_value::items::{Items, Text};
use hpx_value::memory::OutOfMemory;
use hpx_value::outcome::{Due, Outcome};
use hpx_value::profile::Profile;
use hpx_value::value::{Act, State};
use std::alloc::Global;

/// What the outcome of the plain action leaves due, and the state of the action's object.
fn settle(
    alloc: Global,
    act: &Act,
    state: &State,
    made: &[Gid],
    outcome: &Outcome,
) -> Result<(Vec<Due>, State), OutOfMemory>
    ensures due { IfOk result (λ out. out.0.items ≡ due_with state.now (plain act.now) made.now outcome.now) }
    ensures state { IfOk result (λ out. out.1 ≡ state_after state.now (plain act.now) made.now outcome.now) }
{
    let seen = act.plain(alloc)?;
    let hand = Hand::of(alloc, state, &seen, made)?;
    Ok((hand.due(alloc, outcome)?, hand.state_left(alloc, outcome)?))
}

/// Each fired action, as one that may fail for want of credit of an object.
fn refusals_of(alloc: Global, fired: &Bag<Act>, o: Gid) -> Result<Items<Refusal>, OutOfMemory>
    ensures { IfOk result (λ out. out ≡ map (λ act. record { action = name_of act; object = o }) fired.now) }
{
    let mut out = Vec::new(alloc);
    for i in 0..fired.len() {
        out.push(Refusal {
            action: name_of(fired.at(i)),
            object: o,
        })?;
    }
    Ok(Items::from_vec(out))
}

/// The names of actions.
fn names_of(alloc: Global, acts: &[Act]) -> Result<Vec<Name>, OutOfMemory>
    ensures { IfOk result (λ out. out.items ≡ map name_of acts.now) }
{
    let mut out = Vec::new(alloc);
    for act in acts {
        out.push(name_of(act))?;
    }
    Ok(out)
}

/// The objects that travel.
fn objects_of(alloc: Global, travels: &[Travel]) -> Result<Gids, OutOfMemory>
    ensures { IfOk result (λ out. out ≡ map (λ x. x.object) travels.now) }
{
    let mut out = Vec::new(alloc);
    for x in travels {
        out.push(x.object)?;
    }
    Ok(Items::from_vec(out))
}

pub(crate) fn line(
    local: &mut Local,
    alloc: Global,
    action: Name,
    bytes: &Text,
) -> Result<(), OutOfMemory>
    ensures { OnOk result (local.new ≡ record local.old { waiting = line_act action bytes.now ∷ local.old.waiting; serial = action.serial }) }
{
    local.waiting.put(line_act(alloc, action, bytes)?)?;
    local.serial = action.serial;
    Ok(())
}

pub(crate) fn fire(local: &mut Local, action: Name) -> Result<(), OutOfMemory>
    ensures { OnOk result (local.new ≡ record local.old {
      waiting = without (is_act action) local.old.waiting;
      fired = option_to_list (find (is_act action) local.old.waiting) ++ local.old.fired;
    }) }
{
    match local.waiting.take(&action) {
        Some(act) => local.fired.put(act),
        None => Ok(()),
    }
}

pub(crate) fn born(
    local: &mut Local,
    alloc: Global,
    profile: &Profile,
    o: Gid,
    state: &State,
) -> Result<(), OutOfMemory>
    requires { IsValid profile.now }
    ensures { OnOk result (local.new ≡ record local.old {
      objects = record { object = o; state = state.now } ∷ local.old.objects;
      fresh = local.old.fresh ++ o ∷ [];
      number = o.number;
      counts = record { object = o; count = 2 ^ profile.now.credit_log } ∷ local.old.counts;
    }) }
{
    local.objects.put(Standing {
        object: o,
        state: state.duplicate(alloc)?,
    })?;
    local.fresh.push(o)?;
    local.number = o.number();
    local.counts.put(Recorded {
        object: o,
        count: 1u128 << profile.credit_log as u32,
    })
}

/// The action commits, where it does not fail.
pub(crate) fn finish(
    local: &mut Local,
    alloc: Global,
    action: Name,
    outcome: &Outcome,
) -> Result<(), OutOfMemory>
    ensures { OnOk result ((r : Rules) → Some outcome.now ≡ outcome_in r local.old (Event.Done action false) → local.new ≡ record local.old {
      fired = fired_after local.old (Event.Done action false);
      done = done_after local.old (Event.Done action false);
      objects = objects_after r local.old (Event.Done action false);
      due = due_after r local.old (Event.Done action false);
      fresh = [];
    }) }
{
    let Some(act) = local.fired.take(&action) else {
        return Ok(());
    };
    let Some(x) = local.objects.take(&target(&act)) else {
        return Ok(());
    };
    let (due, state) = settle(alloc, &act, &x.state, local.fresh.as_slice(), outcome)?;
    local.objects.put(Standing {
        object: x.object,
        state,
    })?;
    local.due = Bag::from_vec(due);
    local.fresh = Items::new(alloc);
    local.done.put(act)?;
    Ok(())
}

/// The action commits, where it fails for want of credit.
pub(crate) fn fail(local: &mut Local, alloc: Global, action: Name) -> Result<(), OutOfMemory>
    ensures { OnOk result ((r : Rules) (act : _) → find (is_act action) local.old.fired ≡ Some act → local.new ≡ record local.old {
      fired = fired_after local.old (Event.Done action true);
      done = done_after local.old (Event.Done action true);
      due = due_after r local.old (Event.Done action true);
      failures = local.old.failures + 1;
      fresh = [];
    }) }
{
    let Some(act) = local.fired.take(&action) else {
        return Ok(());
    };
    local.due = Bag::from_vec(failure(alloc, &act)?);
    local.fresh = Items::new(alloc);
    local.failures = local.failures.checked_add(1).ok_or(OutOfMemory)?;
    local.done.put(act)
}

/// The action commits.
pub(crate) fn commit(
    local: &mut Local,
    alloc: Global,
    action: Name,
    failed: bool,
    outcome: Option<Outcome>,
) -> Result<(), OutOfMemory>
    ensures { OnOk result ((r : Rules) → outcome ≡ outcome_in r local.old (Event.Done action failed)
        → Row r local.old (Event.Done action failed) → local.new ≡ besides r local.old (Event.Done action failed)) }
{
    match outcome {
        Some(outcome) if !failed => finish(local, alloc, action, &outcome),
        _ => fail(local, alloc, action),
    }
}

pub(crate) fn sent(local: &mut Local, action: Name) -> Result<(), OutOfMemory>
    ensures { OnOk result (local.new ≡ record local.old {
      waiting = due_act action local.old.due ++ local.old.waiting;
      due = tail local.old.due;
      serial = action.serial;
    }) }
{
    local.serial = action.serial;
    match local.due.pop() {
        Some(Due::Message(message)) => local.waiting.put(named(action, message)),
        Some(Due::Print(_)) => Ok(()),
        None => Ok(()),
    }
}

pub(crate) fn print(local: &mut Local)
    ensures { local.new ≡ record local.old { due = tail local.old.due } }
{
    let _ = local.due.pop();
}

pub(crate) fn given(local: &mut Local, alloc: Global, o: Gid, log: u8) -> Result<(), OutOfMemory>
    ensures { OnOk result (local.new ≡ record local.old {
      given = record { object = o; log = log } ∷ local.old.given;
      refusals = refusals_by local.old (Event.Given o log) ++ local.old.refusals;
    }) }
{
    local.given.put(Credit::new(o, log))?;
    if log == 0 {
        local
            .refusals
            .put_all(refusals_of(alloc, &local.fired, o)?)?;
    }
    Ok(())
}

pub(crate) fn left(local: &mut Local, o: Gid, to: u32) -> Result<(), OutOfMemory>
    ensures { OnOk result (local.new ≡ record local.old {
      objects = without (is_standing o) local.old.objects;
      travels = map (leaving to) (option_to_list (find (is_standing o) local.old.objects)) ++ local.old.travels;
    }) }
{
    match local.objects.take(&o) {
        Some(Standing { object, state }) => local.travels.put(Travel { object, state, to }),
        None => Ok(()),
    }
}

pub(crate) fn landed(local: &mut Local, o: Gid) -> Result<(), OutOfMemory>
    ensures { OnOk result (local.new ≡ record local.old {
      travels = without (is_travel o) local.old.travels;
      objects = map stood (option_to_list (find (is_travel o) local.old.travels)) ++ local.old.objects;
    }) }
{
    match local.travels.take(&o) {
        Some(Travel { object, state, .. }) => local.objects.put(Standing { object, state }),
        None => Ok(()),
    }
}

/// What a frame carries goes.
pub(crate) fn send(local: &mut Local, alloc: Global, cargo: Cargo) -> Result<(), OutOfMemory>
    ensures { OnOk result (local.new ≡ record local.old {
      waiting = minus is_act local.old.waiting (map name_of cargo.acts);
      travels = minus is_travel local.old.travels (map (λ x. x.object) cargo.travels);
      asks_gone = cargo.asks ++ local.old.asks_gone;
    }) }
{
    let names = names_of(alloc, cargo.acts.as_slice())?;
    local.waiting.remove_each(names.as_slice());
    let objects = objects_of(alloc, cargo.travels.as_slice())?;
    local.travels.remove_each(objects.as_slice());
    local.asks_gone.put_all(cargo.asks)
}

/// What a frame carries comes.
pub(crate) fn accept(local: &mut Local, cargo: Cargo) -> Result<(), OutOfMemory>
    ensures { OnOk result (local.new ≡ record local.old {
      waiting = cargo.acts ++ local.old.waiting;
      travels = cargo.travels ++ local.old.travels;
      asks_come = cargo.asks ++ local.old.asks_come;
    }) }
{
    local.waiting.put_all(cargo.acts)?;
    local.travels.put_all(cargo.travels)?;
    local.asks_come.put_all(cargo.asks)
}
