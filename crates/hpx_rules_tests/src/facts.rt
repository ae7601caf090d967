//! What is known of a locality, as far as rules ask: written by hand for each scene.
use crate::pair::Whole;
use crate::scenes::Scene;
use hpx_stepped::site::Told;
use hpx_value::gid::Gid;

/// What the home of an object has written of it.
#[derive(Clone, Copy)]
pub struct Record {
    pub count: u128,
    pub place: u32,
    /// Where it moves to.
    pub moving: Option<u32>,
    /// Whether an action waits until it has moved.
    pub queued: bool,
}

/// Whether an object stands at a locality.
#[derive(Clone, Copy)]
pub enum Stand {
    Away,
    Here,
    /// It is to leave.
    Leaving,
}

/// What is known of an object: what its home has written, whether it stands here, and the credit of its ids in states, actions and
/// messages.
pub type Known = (Option<Record>, Stand, u128);

/// Nothing is known.
pub const NOTHING: Known = (None, Stand::Away, 0);

/// A locality, and what is there of the three objects of locality 1.
#[derive(Clone, Copy)]
pub struct Facts {
    pub here: u32,
    pub objects: [Known; 3],
    /// The entry under which more credit of the first was asked for.
    pub asked: Option<u64>,
}

/// What is known of one of the two localities in a scene.
pub fn facts_of(scene: &Scene, second: bool) -> Facts {
    if second {
        Facts {
            here: 1,
            objects: scene.second,
            asked: None,
        }
    } else {
        Facts {
            here: 0,
            objects: scene.first,
            asked: scene.asked,
        }
    }
}

/// Whether there is a root of this id at a locality: the session and the namespaces of symbols and localities at 0 alone.
fn is_root(here: u32, id: Gid) -> bool {
    let everywhere = matches!(id.kind(), 3 | 5 | 7);
    let first = here == 0 && matches!(id.kind(), 1 | 2 | 4);
    id.home() == here && id.number() == 1 && (everywhere || first)
}

/// Whether an object is seen as it is known.
fn is_seen(known: &Known, told: &Told) -> bool {
    let (record, stand, held) = known;
    let (count, place) = match record {
        Some(record) => (record.count, Some(record.place)),
        None => (0, None),
    };
    told.holds == !matches!(stand, Stand::Away)
        && told.held == *held
        && told.count == count
        && told.place == place
}

impl Facts {
    /// What is known of an object.
    fn known(&self, id: Gid) -> Known {
        if id.home() != 1 || id.kind() != 16 {
            return NOTHING;
        }
        match id.number() {
            1 => self.objects[0],
            2 => self.objects[1],
            3 => self.objects[2],
            _ => NOTHING,
        }
    }

    /// Whether an object stands here.
    pub fn stands(&self, id: Gid) -> bool {
        if id.kind() < 16 {
            return is_root(self.here, id);
        }
        !matches!(self.known(id).1, Stand::Away)
    }

    /// Whether it stands here, and is not to leave.
    pub fn stays(&self, id: Gid) -> bool {
        if id.kind() < 16 {
            return is_root(self.here, id);
        }
        matches!(self.known(id).1, Stand::Here)
    }

    /// Its live record, where this is its home.
    pub fn record(&self, id: Gid) -> Option<Record> {
        self.known(id).0
    }

    /// How many live records there are.
    pub fn records(&self) -> u128 {
        let mut records = 0u128;
        for known in &self.objects {
            if known.0.is_some() {
                records = records.saturating_add(1);
            }
        }
        records
    }

    /// The credit of an object that is held here. Of any other than the three none is.
    pub fn held(&self, id: Gid) -> u128 {
        self.known(id).2
    }

    /// Whether they are so, as far as they are seen.
    pub fn are_seen(&self, whole: &Whole) -> bool {
        whole.seen.here == self.here
            && u128::from(whole.seen.number) == self.records()
            && is_seen(&self.objects[0], &whole.one)
            && is_seen(&self.objects[1], &whole.two)
            && is_seen(&self.objects[2], &whole.three)
    }
}
