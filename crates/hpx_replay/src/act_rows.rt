//! Where an entry of an action is allowed.
ghost use Rattle.std.specs.Prelude.{◌≡◌, ◌≤◌, ◌↔◌, ◌++◌, IsTrue, IfOk, IfSome, Some, None, true, false, length};
ghost use Rattle.std.specs.List.{find, list_any};
ghost use Rattle.hpx_value.specs.Ids.{same_object};
ghost use Rattle.hpx_value.specs.Laws.{birth_state};
ghost use Rattle.hpx_journal.specs.Entries.{Rules, move_to};
ghost use Rattle.hpx_journal.specs.Local.{is_standing, is_busy, next_name};
ghost use Rattle.hpx_journal.specs.Rows.{AreMade, is_refused, Row};
ghost use Rattle.hpx_replay.specs.Spaces.{outcome_in, is_blamed};

use hpx_journal::bag::{Bag, Keyed};
use hpx_journal::entry::{Event, Name, Refusal, Standing};
use hpx_journal::local::{Least, Local, move_to, name_of, target};
use hpx_value::codes::PLAIN;
use hpx_value::exact::Exact;
use hpx_value::gid::{Gid, Gids};
use hpx_value::items::{Items, Text};
use hpx_value::memory::OutOfMemory;
use hpx_value::outcome::{Due, Make, Outcome};
use hpx_value::value::{Act, State};
use std::alloc::Global;

/// The greatest length of a line, its mark byte counted.
const LONGEST_LINE: usize = 1_025;

/// An action and the ids that it or its target's state names.
#[derive(Drop)]
pub struct Blame {
    pub action: Name,
    pub ids: Gids,
}

impl Keyed<Blame> for Refusal {
    ghost test = { is_blamed };

    fn is(&self, key: &Blame) -> bool {
        key.action.origin == self.action.origin
            && key.action.serial == self.action.serial
            && is_among(self.object, key.ids.as_slice())
    }
}

/// Whether an object is among those that ids name.
fn is_among(o: Gid, ids: &[Gid]) -> bool
    ensures { result ≡ list_any (same_object o) ids.now }
{
    ids.iter().any(|id| o.names_same(*id))
}

/// Whether an object stands as it is made.
fn is_made(make: &Make, o: Gid, objects: &Bag<Standing>) -> bool
    ensures { IsTrue result ↔ ((o.kind ≡ make.now.kind)
        × (find (is_standing o) objects.now ≡ Some (record { object = o; state = birth_state make.now }))) }
{
    if o.kind() != make.kind {
        return false;
    }
    match objects.find(&o) {
        Some(x) => {
            x.object.same(&o)
                && x.state.drawn == 0
                && x.state.values.same(&make.values)
                && x.state.conts.is_empty()
                && x.state.ids.is_empty()
        }
        None => false,
    }
}

/// Whether the fresh objects are those that an action makes, in order.
fn are_made(makes: &[Make], fresh: &[Gid], objects: &Bag<Standing>) -> bool
    ensures { IsTrue result ↔ AreMade makes.now fresh.now objects.now }
{
    if makes.len() != fresh.len() {
        return false;
    }
    for i in 0..makes.len() {
        if !is_made(&makes[i], fresh[i], objects) {
            return false;
        }
    }
    true
}

/// Whether this is the next name that is drawn here.
fn is_next(local: &Local, action: Name) -> bool
    ensures { IsTrue result ↔ (action ≡ next_name local.now) }
{
    action.origin as u32 == local.here && action.serial != 0 && action.serial - 1 == local.serial
}

pub(crate) fn line_row(local: &Local, action: Name, bytes: &Text) -> bool
    ensures { IsTrue result ↔ ((local.now.here ≡ 0) × (action ≡ next_name local.now) × (length bytes.now ≤ 1025)) }
{
    local.here == 0 && is_next(local, action) && bytes.len() <= LONGEST_LINE
}

/// Whether an action that runs keeps an object busy; one of kind Plain is never busy.
pub(crate) fn is_busy(local: &Local, o: Gid) -> bool
    ensures { result ≡ is_busy o local.now.fired }
{
    o.kind() != PLAIN && local.fired.any(&o)
}

/// Whether a MOVE may be fired here; any other action may.
fn moves_here(local: &Local, act: &Act) -> bool
    ensures { IsTrue result ↔ IfSome (move_to act.now) (λ t. t ≡ local.now.here) }
{
    match move_to(act) {
        Some(to) => to == local.here,
        None => true,
    }
}

pub(crate) fn fire_row(local: &Local, action: Name) -> bool
    ensures { (r : Rules) → IsTrue result ↔ Row r local.now (Event.Fire action) }
{
    let Some(act) = local.waiting.find(&action) else {
        return false;
    };
    let o = target(act);
    let Some(_) = local.objects.find(&o) else {
        return false;
    };
    !is_busy(local, o) && moves_here(local, act)
}

pub(crate) fn sent_row(local: &Local, action: Name) -> bool
    ensures { (r : Rules) → IsTrue result ↔ Row r local.now (Event.Sent action) }
{
    match local.due.first() {
        Some(Due::Message(_)) => is_next(local, action),
        _ => false,
    }
}

pub(crate) fn print_row(local: &Local, bytes: &Text) -> bool
    ensures { (r : Rules) → IsTrue result ↔ Row r local.now (Event.Print bytes.now) }
{
    match local.due.first() {
        Some(Due::Print(text)) => text.same(bytes),
        _ => false,
    }
}

fn done_row(local: &Local, action: Name, outcome: &Option<Outcome>) -> bool
    ensures { (r : Rules) → outcome.now ≡ outcome_in r local.now (Event.Done action false)
        → IsTrue result ↔ Row r local.now (Event.Done action false) }
{
    match outcome {
        Some(outcome) => are_made(
            outcome.makes.as_slice(),
            local.fresh.as_slice(),
            &local.objects,
        ),
        None => false,
    }
}

/// Whether an id came back with no more credit since this action was fired, that it or its target's state names.
fn is_refused(local: &Local, alloc: Global, act: &Act, state: &State) -> Result<bool, OutOfMemory>
    ensures { IfOk result (λ b. b ≡ list_any (is_refused act.now state.now) local.now.refusals) }
{
    let mut ids = Vec::from_slice(alloc, act.ids.as_slice())?;
    ids.extend_from_slice(state.ids.as_slice())?;
    let blame = Blame {
        action: name_of(act),
        ids: Items::from_vec(ids),
    };
    Ok(local.refusals.any(&blame))
}

fn failed_row(local: &Local, alloc: Global, action: Name) -> Result<bool, OutOfMemory>
    ensures { IfOk result (λ b. (r : Rules) → IsTrue b ↔ Row r local.now (Event.Done action true)) }
{
    let Some(act) = local.fired.find(&action) else {
        return Ok(false);
    };
    let Some(x) = local.objects.find(&target(act)) else {
        return Ok(false);
    };
    if !local.fresh.is_empty() || local.failures >= local.given.count(&Least) as u64 {
        return Ok(false);
    }
    let refused = is_refused(local, alloc, act, &x.state)?;
    Ok(refused)
}

pub(crate) fn commit_row(
    local: &Local,
    alloc: Global,
    action: Name,
    failed: bool,
    outcome: &Option<Outcome>,
) -> Result<bool, OutOfMemory>
    ensures { IfOk result (λ b. (r : Rules) → outcome.now ≡ outcome_in r local.now (Event.Done action failed)
        → IsTrue b ↔ Row r local.now (Event.Done action failed)) }
{
    if failed {
        let allowed = failed_row(local, alloc, action)?;
        Ok(allowed)
    } else {
        Ok(done_row(local, action, outcome))
    }
}
