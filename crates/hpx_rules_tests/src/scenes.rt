//! Sessions, each broken off where its script ends, and what is known of both localities then.
use crate::facts::Stand::{Away, Here, Leaving};
use crate::facts::{Known, NOTHING, Record};

/// A session up to some moment, and what is known then of the three objects of locality 1, at both localities.
#[derive(Clone, Copy)]
pub struct Scene {
    pub script: &'static [u8],
    pub first: [Known; 3],
    pub second: [Known; 3],
    /// The entry under which locality 0 asked for more credit of the number.
    pub asked: Option<u64>,
}

/// An object of which nothing has come home, and which does not move.
const WHOLE: Option<Record> = Some(Record {
    count: 256,
    place: 1,
    moving: None,
    queued: false,
});

/// The same, on its way to locality 0.
const MOVING: Option<Record> = Some(Record {
    count: 256,
    place: 1,
    moving: Some(0),
    queued: false,
});

/// The same, and an action waits for it.
const QUEUED: Option<Record> = Some(Record {
    count: 256,
    place: 1,
    moving: Some(0),
    queued: true,
});

/// It has moved, by a MOVE with half of its credit.
const MOVED: Option<Record> = Some(Record {
    count: 128,
    place: 0,
    moving: None,
    queued: false,
});

/// The same, by a MOVE with 8.
const GONE: Option<Record> = Some(Record {
    count: 248,
    place: 0,
    moving: None,
    queued: false,
});

/// An object of whose credit more was given.
const GIVEN: Option<Record> = Some(Record {
    count: 511,
    place: 1,
    moving: None,
    queued: false,
});

/// An object that was made and to which nothing has come.
const NEW: Known = (WHOLE, Here, 0);

/// The credit of the number that the session keeps, and no other object there.
const KEPT: [Known; 3] = [(None, Away, 256), NOTHING, NOTHING];

// All are written by hand from what the lines and steps do. A new object has the credit 256, and an id that is handed on is halved.

/// The number is made, called, and asked for.
pub const CALLED: [Scene; 5] = [
    // Boot.
    Scene {
        script: b"",
        first: [NOTHING, NOTHING, NOTHING],
        second: [NOTHING, NOTHING, NOTHING],
        asked: None,
    },
    // The number stands at its home, and the session keeps its id.
    Scene {
        script: b"n0x1y0",
        first: [(None, Away, 256), NOTHING, NOTHING],
        second: [(WHOLE, Here, 0), NOTHING, NOTHING],
        asked: None,
    },
    // A call is on its way out.
    Scene {
        script: b"n0x1y0a0",
        first: [(None, Away, 256), NOTHING, NOTHING],
        second: [(WHOLE, Here, 0), NOTHING, NOTHING],
        asked: None,
    },
    // It is accepted.
    Scene {
        script: b"n0x1y0a0x",
        first: [(None, Away, 128), NOTHING, NOTHING],
        second: [(WHOLE, Here, 128), NOTHING, NOTHING],
        asked: None,
    },
    // The ninth call of nine asks for more credit.
    Scene {
        script: b"n0x1y0a0xa0xa0xa0xa0xa0xa0xa0xa0",
        first: [NOTHING, NOTHING, NOTHING],
        second: [(WHOLE, Here, 255), NOTHING, NOTHING],
        asked: Some(1),
    },
];

/// It is to leave its home, and leaves.
pub const LEAVING: [Scene; 5] = [
    // The home has begun a move: what it grants is on its own desk.
    Scene {
        script: b"n0x1y0m0x",
        first: [(None, Away, 128), NOTHING, NOTHING],
        second: [(MOVING, Here, 128), NOTHING, NOTHING],
        asked: None,
    },
    // The number is to leave.
    Scene {
        script: b"n0x1y0m0xv",
        first: [(None, Away, 128), NOTHING, NOTHING],
        second: [(MOVING, Leaving, 128), NOTHING, NOTHING],
        asked: None,
    },
    // It has left.
    Scene {
        script: b"n0x1y0m0xvv",
        first: [(None, Away, 128), NOTHING, NOTHING],
        second: [(MOVING, Away, 128), NOTHING, NOTHING],
        asked: None,
    },
    // A call waits until it has moved.
    Scene {
        script: b"n0x1y0m0xva0x",
        first: [(None, Away, 64), NOTHING, NOTHING],
        second: [(QUEUED, Leaving, 192), NOTHING, NOTHING],
        asked: None,
    },
    // It is to leave, and cannot yet.
    Scene {
        script: b"n0x1y0a0xm0xv",
        first: [(None, Away, 64), NOTHING, NOTHING],
        second: [(MOVING, Leaving, 192), NOTHING, NOTHING],
        asked: None,
    },
];

/// It has come elsewhere, and then another object.
pub const LANDED: [Scene; 5] = [
    // It has landed, and its MOVE is not done.
    Scene {
        script: b"n0x1y0m0xvvy",
        first: [(None, Here, 256), NOTHING, NOTHING],
        second: [(MOVING, Away, 0), NOTHING, NOTHING],
        asked: None,
    },
    // Its home is to be told.
    Scene {
        script: b"n0x1y0m0xvvy0",
        first: [(None, Here, 128), NOTHING, NOTHING],
        second: [(MOVING, Away, 0), NOTHING, NOTHING],
        asked: None,
    },
    // Its home has been told.
    Scene {
        script: b"n0x1y0m0xvvy0x",
        first: [(None, Here, 128), NOTHING, NOTHING],
        second: [(MOVED, Away, 0), NOTHING, NOTHING],
        asked: None,
    },
    // A call where it is now.
    Scene {
        script: b"n0x1y0m0xvvy0xa0",
        first: [(None, Here, 128), NOTHING, NOTHING],
        second: [(MOVED, Away, 0), NOTHING, NOTHING],
        asked: None,
    },
    // The second object has moved there.
    Scene {
        script: b"n0x1y0A1wB1wCvvy0x",
        first: [(None, Away, 256), (None, Here, 0), NOTHING],
        second: [NEW, (GONE, Away, 0), NEW],
        asked: None,
    },
];

/// Three objects, called by actions that bring ids.
pub const THREE: [Scene; 5] = [
    // Two more objects are made; the answers that bring their ids are on the way.
    Scene {
        script: b"n0x1y0A1B1",
        first: KEPT,
        second: [NEW, (WHOLE, Here, 256), (WHOLE, Here, 256)],
        asked: None,
    },
    // The answers are lost, and the second object is to move: what its home grants is on its desk.
    Scene {
        script: b"n0x1y0A1wB1wC",
        first: KEPT,
        second: [NEW, (MOVING, Here, 8), NEW],
        asked: None,
    },
    // Where the second object is now, and on the third, actions with continuations are under way.
    Scene {
        script: b"n0x1y0A1wB1wCvvy0xD2E3",
        first: [(None, Away, 256), (None, Here, 1), NOTHING],
        second: [(WHOLE, Here, 4), (GONE, Away, 0), (WHOLE, Here, 2)],
        asked: None,
    },
    // The third object has been added to; the answer is accepted, and the id of its target rides with it.
    Scene {
        script: b"n0x1y0A1wB1wE1",
        first: KEPT,
        second: [(WHOLE, Here, 4), NEW, (WHOLE, Here, 2)],
        asked: None,
    },
    // On the desk of the home lie a Give that nobody there asked for, and two Returns.
    Scene {
        script: b"n0x1y0A1wB1wGI1",
        first: KEPT,
        second: [NEW, NEW, (GIVEN, Here, 0)],
        asked: None,
    },
];

/// Objects that keep ids, wait, and are to leave.
pub const KEEPING: [Scene; 5] = [
    // An object comes whose state keeps an id and a continuation.
    Scene {
        script: b"n0x1y0A1wB1wF",
        first: [(None, Away, 272), NOTHING, (None, Here, 2)],
        second: [NEW, NEW, NEW],
        asked: None,
    },
    // It has landed there.
    Scene {
        script: b"n0x1y0A1wB1wF0",
        first: [(None, Away, 272), NOTHING, (None, Here, 0)],
        second: [NEW, NEW, NEW],
        asked: None,
    },
    // On the desk of the home lies an answer to an object that was never made.
    Scene {
        script: b"n0x1y0A1wB1wH1",
        first: KEPT,
        second: [(WHOLE, Here, 2), NEW, NEW],
        asked: None,
    },
    // The second object is to leave, and an action waits for it.
    Scene {
        script: b"n0x1y0A1wB1wCvJ",
        first: KEPT,
        second: [NEW, (QUEUED, Leaving, 12), NEW],
        asked: None,
    },
    // A move and a Give lie on the desk, and an action with a continuation is under way.
    Scene {
        script: b"n0x1y0A1wB1wCGE3",
        first: KEPT,
        second: [(WHOLE, Here, 4), (MOVING, Here, 8), (GIVEN, Here, 2)],
        asked: None,
    },
];
