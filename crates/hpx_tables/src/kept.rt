//! Actions, objects and messages, each with the fact that it is well formed.
ghost use Rattle.std.specs.Prelude.{◌≡◌, ◌<◌, None, IfOk, IfSome, IfNone, length, take, slice_get};
ghost use Rattle.std.specs.List.{list_any, find};
ghost use Rattle.hpx_value.specs.Values.{bare_state, named};
ghost use Rattle.hpx_journal.specs.Entries.{name_of};
ghost use Rattle.hpx_parcel.specs.Parcels.{IsParcel};
ghost use Rattle.hpx_tables.specs.Fit.{IsFit, IsKept, parcel_for};
ghost use Rattle.hpx_tables.specs.Merged.{is_like, merged_in};

use hpx_journal::entry::{Name, Standing};
use hpx_parcel::parcel::Parcel;
use hpx_value::codes::MOVE;
use hpx_value::exact::Exact;
use hpx_value::gid::Gid;
use hpx_value::items::Items;
use hpx_value::memory::OutOfMemory;
use hpx_value::value::{Act, Message, State};
use std::alloc::Global;
use std::marker::Model;

/// An action that has a spelling.
#[derive(Drop)]
pub struct Fit {
    act: Act,
}

impl Model for Fit {
    ghost use Rattle.hpx_journal.specs.Data.{Act};
    ghost use Rattle.hpx_tables.specs.Fit.{IsFit};

    ghost Value = { Act };

    ghost view = { λ f. f.act };

    ghost invariant = { λ f. IsFit f.act };
}

impl Fit {
    /// An action that is well formed.
    pub fn new(act: Act) -> Fit
        requires { IsFit act }
        ensures { result ≡ act }
    {
        Fit { act }
    }

    /// The action, to be looked at.
    pub fn act(&self) -> &Act
        ensures act { result.now ≡ self.now }
        ensures fit { IsFit self.now }
    {
        &self.act
    }

    /// What it is called.
    pub fn name(&self) -> Name
        ensures { result ≡ name_of self.now }
    {
        Name {
            origin: self.act.origin,
            serial: self.act.serial,
        }
    }

    /// The message that carries it to its object.
    pub fn into_letter(self) -> Letter
        ensures { result ≡ parcel_for self }
    {
        if self.act.code == MOVE {
            Letter::new(Parcel::Move(self.act))
        } else {
            Letter::new(Parcel::Apply(self.act))
        }
    }
}

/// A message that has a spelling.
#[derive(Drop)]
pub struct Letter {
    parcel: Parcel,
}

impl Model for Letter {
    ghost use Rattle.hpx_journal.specs.Data.{Parcel};
    ghost use Rattle.hpx_parcel.specs.Parcels.{IsParcel};

    ghost Value = { Parcel };

    ghost view = { λ l. l.parcel };

    ghost invariant = { λ l. IsParcel l.parcel };
}

impl Letter {
    /// A parcel that is well formed.
    pub fn new(parcel: Parcel) -> Letter
        requires { IsParcel parcel }
        ensures { result ≡ parcel }
    {
        Letter { parcel }
    }

    /// The parcel.
    pub fn into_parcel(self) -> Parcel
        ensures parcel { result ≡ self }
        ensures fit { IsParcel self }
    {
        self.parcel
    }

    /// The parcel, to be looked at.
    pub fn parcel(&self) -> &Parcel
        ensures parcel { result.now ≡ self.now }
        ensures fit { IsParcel self.now }
    {
        &self.parcel
    }
}

/// A message that goes to another locality.
#[derive(Drop)]
pub struct Outgoing {
    pub to: u32,
    pub parcel: Letter,
}

/// A MOVE with which its object came, until it is done.
#[derive(Clone, Copy, Debug, PartialEq, Eq)]
pub struct Arrival {
    pub name: Name,
    /// The bare id of the object.
    pub object: Gid,
}

/// An object whose state is well formed.
#[derive(Drop)]
pub struct Kept {
    standing: Standing,
}

impl Model for Kept {
    ghost use Rattle.hpx_part.specs.Data.{Standing};
    ghost use Rattle.hpx_tables.specs.Fit.{IsKept};

    ghost Value = { Standing };

    ghost view = { λ k. k.standing };

    ghost invariant = { λ k. IsKept k.standing };
}

impl Kept {
    /// An object with a well-formed state.
    pub fn new(object: Gid, state: State) -> Kept
        requires { IsKept (record { object = object; state = state }) }
        ensures { result ≡ record { object = object; state = state } }
    {
        Kept {
            standing: Standing { object, state },
        }
    }

    /// Its id.
    pub fn object(&self) -> Gid
        ensures { result ≡ self.now.object }
    {
        self.standing.object
    }

    /// What it keeps.
    pub fn state(&self) -> &State
        ensures state { result.now ≡ self.now.state }
        ensures kept { IsKept self.now }
    {
        &self.standing.state
    }

    /// What it keeps, for itself.
    pub fn into_state(self) -> State
        ensures state { result ≡ self.state }
        ensures kept { IsKept self }
    {
        self.standing.state
    }

    /// Whether an id of its state is like a rider of this log.
    pub fn has_like(&self, rider: Gid, log: u8) -> bool
        ensures { result ≡ list_any (is_like rider log) self.now.state.ids }
    {
        self.standing
            .state
            .ids
            .as_slice()
            .iter()
            .any(|id| is_like(rider, log, *id))
    }

    /// Merges a rider of this log into the first id of its state that is like it, if there is one.
    pub fn merge(&mut self, rider: Gid, log: u8)
        requires below { log < 31 }
        ensures { self.new ≡ merged_in rider log self.old }
    {
        let ids = self.standing.state.ids.as_slice();
        if let Some(k) = first_like(ids, rider, log) {
            let id = ids[k];
            self.standing.state.ids.set(k, id.with_log(log + 1));
        }
    }
}

/// Whether an id is of the object of a rider, with a credit of its log.
fn is_like(rider: Gid, log: u8, id: Gid) -> bool
    ensures { result ≡ is_like rider log id }
{
    match id.log() {
        Some(n) => rider.names_same(id) && n == log,
        None => false,
    }
}

/// Where the first of these ids stands that is like a rider, if there is one.
#[tactic(auto, using(hpx_part::proofs::Keyed::find_step, hpx_part::proofs::Keyed::find_at_index, crate::proofs::FreeLemmas::find_none_more))]
fn first_like(ids: &[Gid], rider: Gid, log: u8) -> Option<usize>
    ensures inside { IfSome result (λ k. k < length ids.now) }
    ensures found { IfSome result (λ k. find (is_like rider log) ids.now ≡ slice_get ids.now k) }
    ensures first { IfSome result (λ k. find (is_like rider log) (take k ids.now) ≡ None) }
    ensures none { IfNone result (find (is_like rider log) ids.now ≡ None) }
{
    for (k, x) in ids.iter().enumerate() {
        if is_like(rider, log, *x) {
            return Some(k);
        }
    }
    None
}

/// A state without credits.
pub fn bare_state(alloc: Global, state: &State) -> Result<State, OutOfMemory>
    ensures { IfOk result (λ bare. bare ≡ bare_state state.now) }
{
    let mut ids = Vec::new(alloc);
    for id in state.ids.as_slice() {
        ids.push(id.bare())?;
    }
    Ok(State {
        drawn: state.drawn,
        values: state.values.duplicate(alloc)?,
        conts: state.conts.duplicate(alloc)?,
        ids: Items::from_vec(ids),
    })
}

/// A message under a name.
pub fn named(name: Name, message: Message) -> Act
    ensures { result ≡ named name.origin name.serial message }
{
    Act {
        origin: name.origin,
        serial: name.serial,
        code: message.code,
        args: message.args,
        cont: message.cont,
        ids: message.ids,
    }
}
