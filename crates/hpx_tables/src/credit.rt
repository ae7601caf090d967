//! The credit of an object in what a locality keeps, and in the messages on their way.
ghost use Rattle.std.specs.Prelude.{◌≡◌, ◌-◌, ◌^◌, min, sum_by};
ghost use Rattle.hpx_tables.specs.Kept.{credit_in, ids_held, credit_owed};
ghost use Rattle.hpx_tables.specs.Pending.{ids_kept};

use crate::kept::{Fit, Letter, Outgoing};
use crate::objects::Objects;
use crate::pending::Pending;
use crate::queue::Queue;
use hpx_parcel::parcel::Parcel;
use hpx_value::acts::Acts;
use hpx_value::gid::Gid;

/// The credit of an object in ids.
pub fn credit_in(ids: &[Gid], o: Gid) -> u128
    ensures { result ≡ min (2 ^ 128 - 1) (credit_in o ids.now) }
{
    let mut sum = 0u128;
    for i in 0..ids.len() {
        let id = ids[i];
        if o.names_same(id) {
            sum = sum.saturating_add(id.credit());
        }
    }
    sum
}

/// The same in states.
pub fn held_in_states(objects: &Objects, o: Gid) -> u128
    ensures { result ≡ min (2 ^ 128 - 1) (sum_by (λ x. credit_in o x.state.ids) objects.now.items) }
{
    if objects.lacks(o) {
        return 0;
    }
    let mut sum = 0u128;
    for i in 0..objects.len() {
        sum = sum.saturating_add(credit_in(objects.at(i).state().ids.as_slice(), o));
    }
    sum
}

/// The same in actions that run.
pub fn held_in_running(running: &[Fit], o: Gid) -> u128
    ensures { result ≡ min (2 ^ 128 - 1) (sum_by (λ a. credit_in o a.ids) running.now) }
{
    let mut sum = 0u128;
    for i in 0..running.len() {
        sum = sum.saturating_add(credit_in(running[i].act().ids.as_slice(), o));
    }
    sum
}

/// The same in a commit that waits: in its hand, and in the rider of its action.
fn held_in_commit<A: Acts>(waits: &Pending<A>, o: Gid) -> u128
    ensures { result ≡ min (2 ^ 128 - 1) (credit_in o (ids_kept waits.now)) }
{
    let hand = credit_in(waits.hand(), o);
    match waits.action().rider() {
        Some(rider) => hand.saturating_add(credit_in(&[rider], o)),
        None => hand,
    }
}

/// The same in commits that wait.
pub fn held_in_commits<A: Acts>(pending: &[Pending<A>], o: Gid) -> u128
    ensures { result ≡ min (2 ^ 128 - 1) (sum_by (λ w. credit_in o (ids_kept w)) pending.now) }
{
    let mut sum = 0u128;
    for i in 0..pending.len() {
        sum = sum.saturating_add(held_in_commit(&pending[i], o));
    }
    sum
}

/// The same in actions that wait.
pub fn held_in_accepted(accepted: &Queue<Fit>, o: Gid) -> u128
    ensures { result ≡ min (2 ^ 128 - 1) (sum_by (λ a. credit_in o a.ids) accepted.now.items) }
{
    if accepted.lacks(o) {
        return 0;
    }
    let mut sum = 0u128;
    for i in 0..accepted.len() {
        sum = sum.saturating_add(credit_in(accepted[i].act().ids.as_slice(), o));
    }
    sum
}

/// The same in a message that holds its credits.
pub fn held_in_parcel(parcel: &Parcel, o: Gid) -> u128
    ensures { result ≡ min (2 ^ 128 - 1) (credit_in o (ids_held parcel.now)) }
{
    match parcel {
        Parcel::Apply(act) => credit_in(act.ids.as_slice(), o),
        Parcel::Move(act) => credit_in(act.ids.as_slice(), o),
        Parcel::Go(act) => credit_in(act.ids.as_slice(), o),
        Parcel::Object { action, state } => credit_in(action.ids.as_slice(), o).saturating_add(
            credit_in(state.ids.as_slice(), o),
        ),
        _ => 0,
    }
}

/// The same in messages that are here.
pub fn held_in_letters(letters: &Queue<Letter>, o: Gid) -> u128
    ensures { result ≡ min (2 ^ 128 - 1) (sum_by (λ p. credit_in o (ids_held p)) letters.now.items) }
{
    if letters.lacks(o) {
        return 0;
    }
    let mut sum = 0u128;
    for i in 0..letters.len() {
        sum = sum.saturating_add(held_in_parcel(letters[i].parcel(), o));
    }
    sum
}

/// The same in messages to others.
pub fn held_on_the_way(outgoing: &Queue<Outgoing>, o: Gid) -> u128
    ensures { result ≡ min (2 ^ 128 - 1) (sum_by (λ x. credit_in o (ids_held x.parcel)) outgoing.now.items) }
{
    if outgoing.lacks(o) {
        return 0;
    }
    let mut sum = 0u128;
    for i in 0..outgoing.len() {
        sum = sum.saturating_add(held_in_parcel(outgoing[i].parcel.parcel(), o));
    }
    sum
}

/// The credit of an object in a message that owes it.
pub fn owed_in_parcel(parcel: &Parcel, o: Gid) -> u128
    ensures { result ≡ min (2 ^ 128 - 1) (credit_owed o parcel.now) }
{
    match parcel {
        Parcel::Return(id) => credit_in(&[*id], o),
        Parcel::Ask {
            id,
            asker: _,
            entry: _,
        } => credit_in(&[*id], o),
        Parcel::Give { id, entry: _ } => credit_in(&[*id], o),
        Parcel::Landed { id, place: _ } => credit_in(&[*id], o),
        _ => 0,
    }
}

/// The same in messages that are here.
pub fn owed_in_letters(letters: &Queue<Letter>, o: Gid) -> u128
    ensures { result ≡ min (2 ^ 128 - 1) (sum_by (credit_owed o) letters.now.items) }
{
    let mut sum = 0u128;
    for i in 0..letters.len() {
        sum = sum.saturating_add(owed_in_parcel(letters[i].parcel(), o));
    }
    sum
}

/// The same in messages to others.
pub fn owed_on_the_way(outgoing: &Queue<Outgoing>, o: Gid) -> u128
    ensures { result ≡ min (2 ^ 128 - 1) (sum_by (λ x. credit_owed o x.parcel) outgoing.now.items) }
{
    let mut sum = 0u128;
    for i in 0..outgoing.len() {
        sum = sum.saturating_add(owed_in_parcel(outgoing[i].parcel.parcel(), o));
    }
    sum
}
