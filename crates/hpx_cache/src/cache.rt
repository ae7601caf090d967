ghost use Rattle.std.specs.Prelude.{◌≡◌, ◌≤◌, ◌∷◌, [], length, ◌↔◌, IsTrue, IfOk, IfSome, IfNone, OnOk, OnErr};
ghost use Rattle.std.specs.Map.{lookup, remove_entry};
ghost use Rattle.hpx_value.specs.Ids.{bare, same_object};
ghost use Rattle.hpx_cache.specs.Places.{IsSound, learned};
ghost use Rattle.hpx_cache.specs.Keys.{id_of};

use hpx_value::gid::Gid;
use hpx_value::memory::OutOfMemory;
use lru::LruCache;
use std::alloc::Global;
use std::marker::Model;
use std::num::NonZeroUsize;

/// What names an object.
#[derive(Clone, Copy, Debug, PartialEq, Eq, Hash)]
struct Object {
    home: u32,
    kind: u32,
    number: u64,
}

/// Places of objects, the latest first.
///
/// Keys are bare ids: the credit that an id carries is not looked at.
#[derive(Drop)]
pub struct Cache {
    items: LruCache<Object, u32>,
}

impl Model for Cache {
    ghost use Rattle.std.specs.Prelude.{map};
    ghost use Rattle.hpx_cache.specs.Places.{Places, IsSound};

    ghost Value = { Places };

    ghost use Rattle.hpx_cache.specs.Keys.{shown};

    ghost view = { λ c. record { entries = map shown c.items.entries; size = c.items.cap } };
}

/// The key of an id.
fn key_of(gid: Gid) -> Object
    ensures { id_of result ≡ bare gid }
{
    Object {
        home: gid.home(),
        kind: gid.kind(),
        number: gid.number(),
    }
}

impl Cache {
    /// An empty cache for so many places.
    pub fn new(alloc: Global, size: u32) -> Result<Cache, OutOfMemory>
        requires { 1 ≤ size }
        ensures { IfOk result (λ cache. cache ≡ record { entries = []; size = size }) }
    {
        let size = NonZeroUsize::new(size as usize).unwrap();
        let items = LruCache::new(alloc, size)?;
        Ok(Cache { items })
    }

    /// Where an object was last said to be. It is the latest from then on.
    pub fn look(&mut self, gid: Gid) -> Option<u32>
        ensures place { result ≡ lookup (same_object gid) self.old.entries }
        ensures some { IfSome result (λ place. self.new.entries ≡ (bare gid, place) ∷ remove_entry (same_object gid) self.old.entries) }
        ensures none { IfNone result (self.new ≡ self.old) }
        ensures size { self.new.size ≡ self.old.size }
    {
        let place = self.place(gid);
        self.move_to_front(gid);
        place
    }

    /// Where an object was last said to be; no entry moves.
    pub(crate) fn place(&self, gid: Gid) -> Option<u32>
        ensures { result ≡ lookup (same_object gid) self.now.entries }
    {
        self.items.peek(&key_of(gid)).copied()
    }

    /// Makes an object the latest, if it has an entry.
    fn move_to_front(&mut self, gid: Gid)
        ensures some { IfSome (lookup (same_object gid) self.old.entries) (λ place. self.new.entries ≡ (bare gid, place) ∷ remove_entry (same_object gid) self.old.entries) }
        ensures none { IfNone (lookup (same_object gid) self.old.entries) (self.new ≡ self.old) }
        ensures size { self.new.size ≡ self.old.size }
    {
        self.items.promote(&key_of(gid));
    }

    /// Learns where an object is. The entry that was not used for longest leaves a full cache.
    pub fn learn(&mut self, gid: Gid, place: u32) -> Result<(), OutOfMemory>
        ensures ok { OnOk result (self.new.entries ≡ learned self.old gid place) }
        ensures err { OnErr result (self.new ≡ self.old) }
        ensures size { self.new.size ≡ self.old.size }
    {
        self.items.put(key_of(gid), place)?;
        Ok(())
    }

    /// Forgets where an object is.
    pub fn forget(&mut self, gid: Gid)
        ensures { self.new ≡ record self.old { entries = remove_entry (same_object gid) self.old.entries } }
    {
        self.items.pop(&key_of(gid));
    }

    /// How many places there are.
    pub fn len(&self) -> usize
        ensures len { result ≡ length self.now.entries }
        ensures sound { IsSound self.now }
    {
        self.items.len()
    }

    /// Whether there is none.
    pub fn is_empty(&self) -> bool
        ensures { IsTrue result ↔ (self.now.entries ≡ []) }
    {
        self.items.is_empty()
    }
}
