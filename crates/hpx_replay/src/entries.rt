//! One entry, at its locality: whether it is allowed, and what it leaves.
ghost use Rattle.std.specs.Prelude.{◌≡◌, ◌≤◌, ◌↔◌, ◌++◌, ℕ, IsTrue, IfOk, OnOk, IfSome, Some, None};
ghost use Rattle.std.specs.Option.{is_some};
ghost use Rattle.std.specs.List.{AllByRecursion};
ghost use Rattle.hpx_value.specs.Profiles.{IsValid};
ghost use Rattle.hpx_journal.specs.Rows.{TurnAllows, Row, objects_in};
ghost use Rattle.hpx_replay.specs.Spaces.{Meaning, MayWrite, MayEnter, rules_of, outcome_in, reading_of, besides};
ghost use Rattle.hpx_journal.specs.Frames.{cargo_of, parcel_in};
ghost use Rattle.hpx_journal.specs.Bags.{minus, Covers};
ghost use Rattle.hpx_journal.specs.Tokens.{same_token};
ghost use Rattle.hpx_journal.specs.Local.{takes, gives, after};

use crate::act_rows::{commit_row, fire_row, line_row, print_row, sent_row};
use crate::changes::{accept, born, commit, fire, given, landed, left, line, print, send, sent};
use crate::credit_rows::{count_row, given_row};
use crate::frame_rows::{in_row, out_row};
use crate::object_rows::{born_row, freed_row, landed_row, left_row, looked_row};
use crate::tokens::{gives, takes};
use hpx_journal::cargo::{Cargo, cargo_of, parcel_in};
use hpx_journal::entry::{Event, Recorded, Token};
use hpx_journal::local::{Local, target};
use hpx_parcel::parcel::Parcel;
use hpx_value::acts::Acts;
use hpx_value::items::Items;
use hpx_value::memory::OutOfMemory;
use hpx_value::outcome::Outcome;
use hpx_value::profile::Profile;
use std::alloc::Global;

/// The greatest kind of a message to the own locality.
const LAST_MAIL: u8 = 10;

/// What an entry means where it is written: the parcel of its frame and what that carries, and what its action does.
#[derive(Drop)]
pub struct Reading {
    pub parcel: Option<Parcel>,
    pub cargo: Cargo,
    pub outcome: Option<Outcome>,
}

/// Whether an entry names a bare object.
fn is_bare(event: &Event) -> bool
    ensures { IsTrue result ↔ AllByRecursion (λ o. o.log ≡ None) (objects_in event.now) }
{
    match event {
        Event::Split { object, .. } => object.log().is_none(),
        Event::Born { object, .. } => object.log().is_none(),
        Event::Merge { object, .. } => object.log().is_none(),
        Event::Up { object, .. } => object.log().is_none(),
        Event::Asked { object } => object.log().is_none(),
        Event::Given { object, .. } => object.log().is_none(),
        Event::Count { object, .. } => object.log().is_none(),
        Event::Freed { object } => object.log().is_none(),
        Event::Left { object, .. } => object.log().is_none(),
        Event::Landed { object } => object.log().is_none(),
        Event::Looked { object, .. } => object.log().is_none(),
        _ => true,
    }
}

/// Whether the entry comes in its turn.
fn turn_allows(local: &Local, event: &Event) -> bool
    ensures { IsTrue result ↔ TurnAllows local.now event.now }
{
    match event {
        Event::Sent { .. } => local.fresh.is_empty(),
        Event::Print { .. } => local.fresh.is_empty(),
        Event::Looked { .. } => local.fresh.is_empty(),
        Event::Born { .. } => local.due.is_empty(),
        Event::Split { .. } => local.due.is_empty(),
        Event::Done { .. } => local.due.is_empty(),
        _ => local.due.is_empty() && local.fresh.is_empty(),
    }
}

/// What a Done that does not fail does, where its action is fired and its object stands.
fn outcome_in<A: Acts>(
    local: &Local,
    alloc: Global,
    acts: &A,
    event: &Event,
) -> Result<Option<Outcome>, OutOfMemory>
    ensures { IfOk result (λ out. (p : _) → out ≡ outcome_in (rules_of (A.count acts.now) p A.act_of) local.now event.now) }
{
    let Event::Done { action, failed } = event else {
        return Ok(None);
    };
    if *failed {
        return Ok(None);
    }
    let Some(act) = local.fired.find(action) else {
        return Ok(None);
    };
    let Some(x) = local.objects.find(&target(act)) else {
        return Ok(None);
    };
    let seen = act.plain(alloc)?;
    let outcome = acts.act(alloc, x.object.kind(), local.here, &x.state, &seen)?;
    Ok(Some(outcome))
}

/// What an entry means here.
pub(crate) fn read<A: Acts>(
    local: &Local,
    alloc: Global,
    acts: &A,
    event: &Event,
) -> Result<Reading, OutOfMemory>
    ensures { IfOk result (λ x. (p : _) → x ≡ reading_of (rules_of (A.count acts.now) p A.act_of) local.now event.now) }
{
    let parcel = parcel_in(alloc, event)?;
    let cargo = match cargo_of(alloc, &parcel) {
        Ok(cargo) => cargo,
        Err(why) => {
            drop(parcel);
            return Err(why);
        }
    };
    match outcome_in(local, alloc, acts, event) {
        Ok(outcome) => Ok(Reading {
            parcel,
            cargo,
            outcome,
        }),
        Err(why) => {
            drop(parcel);
            drop(cargo);
            Err(why)
        }
    }
}

/// Whether the row of an entry allows it.
fn row(
    local: &Local,
    alloc: Global,
    localities: u32,
    profile: &Profile,
    event: &Event,
    reading: &Reading,
) -> Result<bool, OutOfMemory>
    requires valid { IsValid profile.now }
    requires cargo { reading.now.cargo ≡ cargo_of reading.now.parcel }
    ensures { IfOk result (λ b. (f : Meaning) → reading.now ≡ reading_of (rules_of localities profile.now f) local.now event.now
        → IsTrue b ↔ Row (rules_of localities profile.now f) local.now event.now) }
{
    match event {
        Event::Line { action, bytes } => Ok(line_row(local, *action, bytes)),
        Event::Fire { action } => Ok(fire_row(local, *action)),
        Event::Split { log, .. } => Ok(*log >= 1),
        Event::Born { object, state } => Ok(born_row(local, *object, state)),
        Event::Done { action, failed } => {
            commit_row(local, alloc, *action, *failed, &reading.outcome)
        }
        Event::Sent { action } => Ok(sent_row(local, *action)),
        Event::Print { bytes } => Ok(print_row(local, bytes)),
        Event::Merge { log, .. } => Ok(*log < profile.credit_log),
        Event::Up { .. } => Ok(true),
        Event::Asked { .. } => Ok(true),
        Event::Given { object, log } => Ok(given_row(local, profile, *object, *log)),
        Event::Count { object, count, why } => {
            Ok(count_row(local, profile, *object, *count, *why))
        }
        Event::Freed { object } => freed_row(local, alloc, *object),
        Event::Left { object, to } => Ok(left_row(local, *object, *to)),
        Event::Landed { object } => Ok(landed_row(local, *object)),
        Event::Looked { object, hit } => Ok(looked_row(local, *object, *hit)),
        Event::Mail { kind } => Ok(1 <= *kind && *kind <= LAST_MAIL),
        Event::Out { to, .. } => {
            Ok(out_row(local, localities, *to, &reading.parcel, &reading.cargo))
        }
        Event::In { .. } => Ok(in_row(local, &reading.parcel)),
    }
}

/// What an entry leaves, its tokens aside.
fn change(
    local: &mut Local,
    alloc: Global,
    profile: &Profile,
    event: &Event,
    reading: Reading,
) -> Result<(), OutOfMemory>
    requires { IsValid profile.now }
    ensures { OnOk result ((n : ℕ) (f : Meaning) → reading ≡ reading_of (rules_of n profile.now f) local.old event.now
        → Row (rules_of n profile.now f) local.old event.now → local.new ≡ besides (rules_of n profile.now f) local.old event.now) }
{
    match event {
        Event::Line { action, bytes } => line(local, alloc, *action, bytes),
        Event::Fire { action } => fire(local, *action),
        Event::Born { object, state } => born(local, alloc, profile, *object, state),
        Event::Done { action, failed } => commit(local, alloc, *action, *failed, reading.outcome),
        Event::Sent { action } => sent(local, *action),
        Event::Print { .. } => {
            print(local);
            Ok(())
        }
        Event::Asked { object } => local.asked.put(*object),
        Event::Given { object, log } => given(local, alloc, *object, *log),
        Event::Count { object, count, .. } => local.counts.put(Recorded {
            object: *object,
            count: *count,
        }),
        Event::Freed { object } => {
            let _ = local.objects.take(object);
            Ok(())
        }
        Event::Left { object, to } => left(local, *object, *to),
        Event::Landed { object } => landed(local, *object),
        Event::Out { .. } => send(local, alloc, reading.cargo),
        Event::In { .. } => accept(local, reading.cargo),
        Event::Split { .. } => Ok(()),
        Event::Merge { .. } => Ok(()),
        Event::Up { .. } => Ok(()),
        Event::Looked { .. } => Ok(()),
        Event::Mail { .. } => Ok(()),
    }
}

/// Whether the entry is allowed here, its tokens aside.
fn allows(
    local: &Local,
    alloc: Global,
    localities: u32,
    profile: &Profile,
    event: &Event,
    reading: &Reading,
) -> Result<bool, OutOfMemory>
    requires valid { IsValid profile.now }
    requires cargo { reading.now.cargo ≡ cargo_of reading.now.parcel }
    ensures { IfOk result (λ b. (f : Meaning) → reading.now ≡ reading_of (rules_of localities profile.now f) local.now event.now
        → IsTrue b ↔ MayWrite (rules_of localities profile.now f) local.now event.now) }
{
    if !turn_allows(local, event) || !is_bare(event) {
        return Ok(false);
    }
    let allowed = row(local, alloc, localities, profile, event, reading)?;
    Ok(allowed)
}

/// Tokens are taken and given; `false` where one that is taken is not there.
fn trade(local: &mut Local, taken: &[Token], given: Items<Token>) -> Result<bool, OutOfMemory>
    ensures covers { IfOk result (λ b. IsTrue b ↔ Covers same_token local.old.tokens taken.now) }
    ensures tokens { IfOk result (λ b. IsTrue b → local.new ≡ record local.old { tokens = given ++ minus same_token local.old.tokens taken.now }) }
{
    if !local.tokens.take_each(taken) {
        return Ok(false);
    }
    local.tokens.put_all(given)?;
    Ok(true)
}

/// The tokens that an entry takes, and those that it gives.
fn tokens_of(
    alloc: Global,
    profile: &Profile,
    event: &Event,
    cargo: &Cargo,
) -> Result<(Items<Token>, Items<Token>), OutOfMemory>
    requires { cargo.now ≡ cargo_of (parcel_in event.now) }
    ensures taken { IfOk result (λ out. (n : ℕ) (f : Meaning) → out.0 ≡ takes (rules_of n profile.now f) event.now) }
    ensures given { IfOk result (λ out. (n : ℕ) (f : Meaning) → out.1 ≡ gives (rules_of n profile.now f) event.now) }
{
    let taken = takes(alloc, event, cargo)?;
    Ok((taken, gives(alloc, profile, event, cargo)?))
}

/// The tokens of an entry, where it is allowed here.
fn may_enter(
    local: &Local,
    alloc: Global,
    localities: u32,
    profile: &Profile,
    event: &Event,
    reading: &Reading,
) -> Result<Option<(Items<Token>, Items<Token>)>, OutOfMemory>
    requires valid { IsValid profile.now }
    requires cargo { reading.now.cargo ≡ cargo_of (parcel_in event.now) }
    requires parcel { reading.now.parcel ≡ parcel_in event.now }
    ensures allowed { IfOk result (λ out. (f : Meaning) → reading.now ≡ reading_of (rules_of localities profile.now f) local.now event.now
        → IsTrue (is_some out) ↔ MayWrite (rules_of localities profile.now f) local.now event.now) }
    ensures taken { IfOk result (λ out. IfSome out (λ x. (n : ℕ) (f : Meaning) → x.0 ≡ takes (rules_of n profile.now f) event.now)) }
    ensures given { IfOk result (λ out. IfSome out (λ x. (n : ℕ) (f : Meaning) → x.1 ≡ gives (rules_of n profile.now f) event.now)) }
{
    if !allows(local, alloc, localities, profile, event, reading)? {
        return Ok(None);
    }
    Ok(Some(tokens_of(alloc, profile, event, &reading.cargo)?))
}

/// Tokens are traded, and the entry is the last; `false` where a token that is taken is not there.
fn close(
    local: &mut Local,
    alloc: Global,
    event: &Event,
    tokens: (Items<Token>, Items<Token>),
) -> Result<bool, OutOfMemory>
    ensures covers { IfOk result (λ b. IsTrue b ↔ Covers same_token local.old.tokens tokens.0) }
    ensures after { IfOk result (λ b. IsTrue b → local.new ≡ record local.old {
      tokens = tokens.1 ++ minus same_token local.old.tokens tokens.0;
      last = Some event.now;
    }) }
{
    let (taken, given) = tokens;
    if !trade(local, taken.as_slice(), given)? {
        return Ok(false);
    }
    drop(local.last.replace(event.duplicate(alloc)?));
    Ok(true)
}

/// The entry is written here, if it is allowed; `false` where it is not, and then what is left here has no meaning.
pub(crate) fn enter(
    local: &mut Local,
    alloc: Global,
    localities: u32,
    profile: &Profile,
    event: &Event,
    reading: Reading,
) -> Result<bool, OutOfMemory>
    requires valid { IsValid profile.now }
    requires cargo { reading.cargo ≡ cargo_of (parcel_in event.now) }
    requires parcel { reading.parcel ≡ parcel_in event.now }
    ensures allowed { IfOk result (λ b. (f : Meaning) → reading ≡ reading_of (rules_of localities profile.now f) local.old event.now
        → IsTrue b ↔ MayEnter (rules_of localities profile.now f) local.old event.now) }
    ensures after { IfOk result (λ b. (f : Meaning) → reading ≡ reading_of (rules_of localities profile.now f) local.old event.now
        → IsTrue b → local.new ≡ after (rules_of localities profile.now f) local.old event.now) }
{
    match may_enter(local, alloc, localities, profile, event, &reading) {
        Ok(Some(tokens)) => {
            change(local, alloc, profile, event, reading)?;
            let closed = close(local, alloc, event, tokens)?;
            Ok(closed)
        }
        // A reading is let go by a call: dropped where a `?` returns, each of its variants is a path of its own.
        Ok(None) => {
            drop(reading);
            Ok(false)
        }
        Err(why) => {
            drop(reading);
            Err(why)
        }
    }
}
