//! Where an entry of credit is allowed.
ghost use Rattle.std.specs.Prelude.{◌≡◌, ◌≤◌, ◌<◌, ◌+◌, ◌^◌, ◌↔◌, ℕ, IsTrue};
ghost use Rattle.hpx_value.specs.Profiles.{IsValid};
ghost use Rattle.hpx_journal.specs.Local.{recorded};
ghost use Rattle.hpx_journal.specs.Rows.{Row};
ghost use Rattle.hpx_replay.specs.Spaces.{Meaning, rules_of};

use hpx_journal::entry::{Event, Reason};
use hpx_journal::local::Local;
use hpx_value::gid::Gid;
use hpx_value::profile::Profile;

/// Whether a credit of this log came back from a count.
#[tactic(auto, using(crate::proofs::RowLemmas::great_power))]
fn comes_back(before: u128, after: u128, log: u8) -> bool
    ensures { IsTrue result ↔ (after + 2 ^ log ≡ before) }
{
    if log >= 128 || before < after {
        return false;
    }
    before - after == 1u128 << log as u32
}

/// Whether a count grows by all but one of a new object's credits, within the limit.
fn grows(profile: &Profile, before: u128, after: u128) -> bool
    requires { IsValid profile.now }
    ensures { IsTrue result ↔ ((after + 1 ≡ before + 2 ^ profile.now.credit_log) × (after ≤ profile.now.credit_limit)) }
{
    let credit = 1u128 << profile.credit_log as u32;
    after <= profile.credit_limit && credit <= after + 1 && after + 1 - credit == before
}

/// Whether a count stays since it has no room.
fn stays(profile: &Profile, before: u128, after: u128) -> bool
    requires { IsValid profile.now }
    ensures { IsTrue result ↔ ((after ≡ before) × (profile.now.credit_limit + 1 < before + 2 ^ profile.now.credit_log)) }
{
    let credit = 1u128 << profile.credit_log as u32;
    after == before && profile.credit_limit + 1 - credit < before
}

/// The last number that was written for an object, or 0.
fn recorded(local: &Local, o: Gid) -> u128
    ensures { result ≡ recorded o local.now }
{
    match local.counts.find(&o) {
        Some(x) => x.count,
        None => 0,
    }
}

pub(crate) fn given_row(local: &Local, profile: &Profile, o: Gid, log: u8) -> bool
    ensures { (n : ℕ) (f : Meaning) → IsTrue result ↔ Row (rules_of n profile.now f) local.now (Event.Given o log) }
{
    (log == 0 || log == profile.credit_log) && local.given.count(&o) < local.asked.count(&o)
}

pub(crate) fn count_row(local: &Local, profile: &Profile, o: Gid, count: u128, why: Reason) -> bool
    requires { IsValid profile.now }
    ensures { (n : ℕ) (f : Meaning) → IsTrue result ↔ Row (rules_of n profile.now f) local.now (Event.Count o count why) }
{
    let before = recorded(local, o);
    if o.home() != local.here || before == 0 {
        return false;
    }
    match why {
        Reason::Returned(log) => comes_back(before, count, log),
        Reason::Granted => grows(profile, before, count),
        Reason::Refused => stays(profile, before, count),
    }
}
