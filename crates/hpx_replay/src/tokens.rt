//! The tokens that an entry takes and gives.
ghost use Rattle.std.specs.Prelude.{◌≡◌, ◌+◌, ◌-◌, ◌∷◌, [], ℕ, IfOk, true, false};
ghost use Rattle.hpx_value.specs.declared.profile.Profile.{Profile as Settings};
ghost use Rattle.hpx_journal.specs.Local.{takes, gives};
ghost use Rattle.hpx_replay.specs.Spaces.{Meaning, rules_of};
ghost use Rattle.hpx_journal.specs.Frames.{cargo_of, parcel_in};

use hpx_journal::cargo::{Cargo, one};
use hpx_journal::entry::{Event, Reason, Token};
use hpx_value::gid::Gid;
use hpx_value::items::Items;
use hpx_value::memory::OutOfMemory;
use hpx_value::profile::Profile;
use std::alloc::Global;

/// A credit that an id holds.
fn held(object: Gid, log: u8) -> Token
    ensures { result ≡ record { object = object; log = log; owed = false } }
{
    Token {
        object,
        log,
        owed: false,
    }
}

/// A credit that is owed to the object's home.
fn owed(object: Gid, log: u8) -> Token
    ensures { result ≡ record { object = object; log = log; owed = true } }
{
    Token {
        object,
        log,
        owed: true,
    }
}

/// The same tokens once more.
fn copied(alloc: Global, tokens: &Items<Token>) -> Result<Items<Token>, OutOfMemory>
    ensures { IfOk result (λ out. out ≡ tokens.now) }
{
    Ok(Items::from_vec(Vec::from_slice(alloc, tokens.as_slice())?))
}

/// Two credits that ids hold.
fn both(alloc: Global, object: Gid, log: u8) -> Result<Items<Token>, OutOfMemory>
    ensures { IfOk result (λ out. out ≡ record { object = object; log = log; owed = false }
        ∷ record { object = object; log = log; owed = false } ∷ []) }
{
    let mut out = one(alloc, held(object, log))?;
    out.push(held(object, log))?;
    Ok(out)
}

/// The log above. One that no id has is answered like want of memory: no entry that is allowed has it.
fn above(log: u8) -> Result<u8, OutOfMemory>
    ensures { IfOk result (λ next. next ≡ log + 1) }
{
    log.checked_add(1).ok_or(OutOfMemory)
}

/// The tokens that an entry takes.
pub(crate) fn takes(
    alloc: Global,
    event: &Event,
    cargo: &Cargo,
) -> Result<Items<Token>, OutOfMemory>
    requires { cargo.now ≡ cargo_of (parcel_in event.now) }
    ensures { IfOk result (λ out. (n : ℕ) (p : Settings) (f : Meaning) → out ≡ takes (rules_of n p f) event.now) }
{
    match event {
        Event::Split { object, log } => one(alloc, held(*object, *log)),
        Event::Merge { object, log } => both(alloc, *object, *log),
        Event::Up { object, log } => one(alloc, held(*object, *log)),
        Event::Asked { object } => one(alloc, held(*object, 0)),
        Event::Given { object, log } => one(alloc, owed(*object, *log)),
        Event::Count { object, why, .. } => match why {
            Reason::Returned(log) => one(alloc, owed(*object, *log)),
            Reason::Granted => one(alloc, owed(*object, 0)),
            Reason::Refused => one(alloc, owed(*object, 0)),
        },
        Event::Out { .. } => copied(alloc, &cargo.tokens),
        _ => Ok(Items::new(alloc)),
    }
}

/// The tokens that an entry gives.
pub(crate) fn gives(
    alloc: Global,
    profile: &Profile,
    event: &Event,
    cargo: &Cargo,
) -> Result<Items<Token>, OutOfMemory>
    requires { cargo.now ≡ cargo_of (parcel_in event.now) }
    ensures { IfOk result (λ out. (n : ℕ) (f : Meaning) → out ≡ gives (rules_of n profile.now f) event.now) }
{
    match event {
        Event::Split { object, log } => both(alloc, *object, log.saturating_sub(1)),
        Event::Born { object, .. } => one(alloc, held(*object, profile.credit_log)),
        Event::Merge { object, log } => one(alloc, held(*object, above(*log)?)),
        Event::Up { object, log } => one(alloc, owed(*object, *log)),
        Event::Asked { object } => one(alloc, owed(*object, 0)),
        Event::Given { object, log } => one(alloc, held(*object, *log)),
        Event::Count { object, why, .. } => match why {
            Reason::Returned(_) => Ok(Items::new(alloc)),
            Reason::Granted => one(alloc, owed(*object, profile.credit_log)),
            Reason::Refused => one(alloc, owed(*object, 0)),
        },
        Event::In { .. } => copied(alloc, &cargo.tokens),
        _ => Ok(Items::new(alloc)),
    }
}
