ghost use Rattle.std.specs.Prelude.{◌≡◌, ◌==◌, ℕ, Bool, IsTrue};
ghost use Rattle.hpx_value.specs.Ids.{same_object};
ghost use Rattle.hpx_value.specs.Hands.{session, id_at};
ghost use Rattle.hpx_journal.specs.Entries.{name_of, target_of, move_to};
ghost use Rattle.hpx_journal.specs.Tokens.{same_token};
ghost use Rattle.hpx_journal.specs.Local.{is_act, is_standing, is_travel, is_recorded, is_given, is_given_none, acts_on};
ghost use Rattle.hpx_journal.specs.Rows.{is_dead_record, is_move_of};

use crate::bag::{Bag, Keyed};
use crate::entry::{Credit, Event, Name, Recorded, Refusal, Standing, Token, Travel};
use hpx_value::codes::{MOVE, SESSION};
use hpx_value::gid::{Gid, Gids};
use hpx_value::outcome::Due;
use hpx_value::value::{Act, Value};

/// What one locality has. Each list has the newest first, but for what is fresh and what is due.
#[derive(Drop)]
pub struct Local {
    pub here: u32,
    pub waiting: Bag<Act>,
    pub fired: Bag<Act>,
    pub done: Bag<Act>,
    pub objects: Bag<Standing>,
    /// On the way out or in.
    pub travels: Bag<Travel>,
    /// Born since the last Done, in order.
    pub fresh: Gids,
    /// Left by the last Done, and not yet written, in order.
    pub due: Bag<Due>,
    pub tokens: Bag<Token>,
    /// The last that was drawn.
    pub serial: u64,
    /// The last that was drawn.
    pub number: u64,
    pub counts: Bag<Recorded>,
    pub last: Option<Event>,
    /// What was asked for here.
    pub asked: Bag<Gid>,
    /// What was given here.
    pub given: Bag<Credit>,
    /// What came in an Ask or a Give.
    pub asks_come: Bag<Gid>,
    /// What went in one.
    pub asks_gone: Bag<Gid>,
    pub refusals: Bag<Refusal>,
    /// The Dones that failed.
    pub failures: u64,
}

/// The name of an action.
pub fn name_of(act: &Act) -> Name
    ensures { result ≡ name_of act.now }
{
    Name {
        origin: act.origin,
        serial: act.serial,
    }
}

/// The id at a place, or the session's past the end.
pub fn id_at(ids: &[Gid], place: usize) -> Gid
    ensures { result ≡ id_at ids.now place }
{
    match ids.get(place) {
        Some(id) => *id,
        None => Gid::new(0, SESSION, 1),
    }
}

/// The object that an action is for.
pub fn target(act: &Act) -> Gid
    ensures { result ≡ target_of act.now }
{
    id_at(act.ids.as_slice(), 0)
}

/// Where a MOVE moves its target; any other action moves nothing.
pub fn move_to(act: &Act) -> Option<u32>
    ensures { result ≡ move_to act.now }
{
    let kind = target(act).kind();
    if act.code != MOVE || kind < 16 || 31 < kind {
        return None;
    }
    match act.args.as_slice() {
        [Value::Int(t)] if 0 <= *t && *t < 64 => Some(*t as u32),
        _ => None,
    }
}

impl Keyed<Name> for Act {
    ghost test = { is_act };

    fn is(&self, key: &Name) -> bool {
        key.origin == self.origin && key.serial == self.serial
    }
}

impl Keyed<Gid> for Act {
    ghost test = { acts_on };

    fn is(&self, key: &Gid) -> bool {
        key.names_same(target(self))
    }
}

/// A MOVE of an object to a locality.
#[derive(Clone, Copy, Debug)]
pub struct MoveOf {
    pub object: Gid,
    pub to: u32,
}

impl Keyed<MoveOf> for Act {
    ghost test = { λ m x. is_move_of m.object m.to x };

    fn is(&self, key: &MoveOf) -> bool {
        key.object.names_same(target(self)) && move_to(self) == Some(key.to)
    }
}

impl Keyed<Gid> for Standing {
    ghost test = { is_standing };

    fn is(&self, key: &Gid) -> bool {
        key.names_same(self.object)
    }
}

impl Keyed<Gid> for Travel {
    ghost test = { is_travel };

    fn is(&self, key: &Gid) -> bool {
        key.names_same(self.object)
    }
}

impl Keyed<Gid> for Recorded {
    ghost test = { is_recorded };

    fn is(&self, key: &Gid) -> bool {
        key.names_same(self.object)
    }
}

/// An object whose count is 0.
#[derive(Clone, Copy, Debug)]
pub struct Dead {
    pub object: Gid,
}

impl Keyed<Dead> for Recorded {
    ghost test = { λ d x. is_dead_record d.object x };

    fn is(&self, key: &Dead) -> bool {
        key.object.names_same(self.object) && self.count == 0
    }
}

impl Keyed<Gid> for Gid {
    ghost test = { same_object };

    fn is(&self, key: &Gid) -> bool {
        key.names_same(*self)
    }
}

impl Keyed<Gid> for Credit {
    ghost test = { is_given };

    fn is(&self, key: &Gid) -> bool {
        key.names_same(self.object())
    }
}

/// No more credit than the least.
#[derive(Clone, Copy, Debug)]
pub struct Least;

impl Keyed<Least> for Credit {
    ghost test = { λ _ x. is_given_none x };

    fn is(&self, _key: &Least) -> bool {
        self.log() == 0
    }
}

impl Keyed<Token> for Token {
    ghost test = { same_token };

    fn is(&self, key: &Token) -> bool {
        key.object.names_same(self.object) && key.log == self.log && key.owed == self.owed
    }
}
