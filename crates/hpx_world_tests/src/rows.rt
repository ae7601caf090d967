//! What each turn answers, and what it leaves, in worlds of one, two and three localities. Counted by hand, from the entries that a
//! line, a commit and a message write.
use crate::story::{Ask, Got, Row};

/// One locality: a number is made. Line; Fire; Done and Sent; Fire; Born, Done and Sent; Fire; Done.
pub const MADE_AT_ONE: [Row; 14] = [
    (Ask::Feed(b'n'), Got::Fed, 1, false),
    (Ask::Pump(0), Got::Empty, 1, false),
    (Ask::Fire(0), Got::Fired(0), 2, false),
    (Ask::Fire(0), Got::Idle, 2, false),
    (Ask::Finish, Got::Committed, 4, false),
    (Ask::Finish, Got::NotRunning, 4, false),
    (Ask::Pump(0), Got::Empty, 4, false),
    (Ask::Desk(0), Got::Empty, 4, false),
    (Ask::Take, Got::Empty, 4, false),
    (Ask::Fire(0), Got::Fired(0), 5, false),
    (Ask::Finish, Got::Committed, 8, false),
    (Ask::Fire(0), Got::Fired(0), 9, false),
    (Ask::Finish, Got::Committed, 10, true),
    (Ask::Fire(0), Got::Idle, 10, true),
];

/// One locality, where a number is: it is called, and its id is dropped. Line; Fire; Split, Done and Sent; Fire; Done and Sent; Fire;
/// Done and Merge. Line; Fire; Done and Up; Mail and Count; Mail and Freed.
pub const DROPPED_AT_ONE: [Row; 16] = [
    (Ask::Feed(b'a'), Got::Fed, 11, false),
    (Ask::Fire(0), Got::Fired(0), 12, false),
    (Ask::Finish, Got::Committed, 15, false),
    (Ask::Fire(0), Got::Fired(0), 16, false),
    (Ask::Desk(0), Got::Empty, 16, false),
    (Ask::Finish, Got::Committed, 18, false),
    (Ask::Desk(0), Got::Empty, 18, false),
    (Ask::Fire(0), Got::Fired(0), 19, false),
    (Ask::Finish, Got::Committed, 21, true),
    (Ask::Feed(b'd'), Got::Fed, 22, false),
    (Ask::Fire(0), Got::Fired(0), 23, false),
    (Ask::Finish, Got::Committed, 25, false),
    (Ask::Pump(0), Got::Empty, 25, false),
    (Ask::Desk(0), Got::Moved, 27, false),
    (Ask::Desk(0), Got::Moved, 29, true),
    (Ask::Desk(0), Got::Empty, 29, true),
];

/// Two localities: the same, with an Out and an In where the call goes there and where its answer comes.
pub const MADE_AT_TWO: [Row; 17] = [
    (Ask::Take, Got::Empty, 0, true),
    (Ask::Feed(b'n'), Got::Fed, 1, false),
    (Ask::Fire(1), Got::Idle, 1, false),
    (Ask::Fire(0), Got::Fired(0), 2, false),
    (Ask::Finish, Got::Committed, 4, false),
    (Ask::Desk(0), Got::Empty, 4, false),
    (Ask::Take, Got::Empty, 4, false),
    (Ask::Pump(1), Got::Empty, 4, false),
    (Ask::Pump(0), Got::Moved, 5, false),
    (Ask::Take, Got::Moved, 6, false),
    (Ask::Take, Got::Empty, 6, false),
    (Ask::Fire(1), Got::Fired(1), 7, false),
    (Ask::Finish, Got::Committed, 10, false),
    (Ask::Pump(1), Got::Moved, 11, false),
    (Ask::Take, Got::Moved, 12, false),
    (Ask::Fire(0), Got::Fired(0), 13, false),
    (Ask::Finish, Got::Committed, 14, true),
];

/// Three localities: the number is made at the last, and the one between has nothing to do.
pub const MADE_AT_THREE: [Row; 17] = [
    (Ask::Feed(b'n'), Got::Fed, 1, false),
    (Ask::Fire(0), Got::Fired(0), 2, false),
    (Ask::Finish, Got::Committed, 4, false),
    (Ask::Pump(2), Got::Empty, 4, false),
    (Ask::Pump(0), Got::Moved, 5, false),
    (Ask::Take, Got::Moved, 6, false),
    (Ask::Fire(0), Got::Idle, 6, false),
    (Ask::Fire(1), Got::Idle, 6, false),
    (Ask::Fire(2), Got::Fired(2), 7, false),
    (Ask::Finish, Got::Committed, 10, false),
    (Ask::Pump(1), Got::Empty, 10, false),
    (Ask::Desk(1), Got::Empty, 10, false),
    (Ask::Desk(2), Got::Empty, 10, false),
    (Ask::Pump(2), Got::Moved, 11, false),
    (Ask::Take, Got::Moved, 12, false),
    (Ask::Fire(0), Got::Fired(0), 13, false),
    (Ask::Finish, Got::Committed, 14, true),
];

/// Two localities, where a number is: it is called. Line; Fire; Split, Done and Sent; Out; In; Fire; Done and Sent; Out; In; Fire; Done
/// and Merge.
pub const CALLED_AT_TWO: [Row; 13] = [
    (Ask::Feed(b'a'), Got::Fed, 15, false),
    (Ask::Fire(0), Got::Fired(0), 16, false),
    (Ask::Finish, Got::Committed, 19, false),
    (Ask::Pump(0), Got::Moved, 20, false),
    (Ask::Take, Got::Moved, 21, false),
    (Ask::Fire(1), Got::Fired(1), 22, false),
    (Ask::Finish, Got::Committed, 24, false),
    (Ask::Desk(1), Got::Empty, 24, false),
    (Ask::Pump(1), Got::Moved, 25, false),
    (Ask::Take, Got::Moved, 26, false),
    (Ask::Fire(0), Got::Fired(0), 27, false),
    (Ask::Finish, Got::Committed, 29, true),
    (Ask::Drain, Got::Drained, 29, true),
];

/// The same, step by step, and then the number's id is dropped: Line; Fire, Done and Up; Out; In and Count; Mail and Freed.
pub const STEPPED_AT_TWO: [Row; 23] = [
    (Ask::Step, Got::Still, 0, true),
    (Ask::Feed(b'n'), Got::Fed, 1, false),
    (Ask::Step, Got::Stepped, 4, false),
    (Ask::Step, Got::Stepped, 5, false),
    (Ask::Step, Got::Stepped, 6, false),
    (Ask::Step, Got::Stepped, 10, false),
    (Ask::Step, Got::Stepped, 11, false),
    (Ask::Step, Got::Stepped, 12, false),
    (Ask::Step, Got::Stepped, 14, true),
    (Ask::Step, Got::Still, 14, true),
    (Ask::Feed(b'a'), Got::Fed, 15, false),
    (Ask::Step, Got::Stepped, 19, false),
    (Ask::Step, Got::Stepped, 20, false),
    (Ask::Step, Got::Stepped, 21, false),
    (Ask::Step, Got::Stepped, 24, false),
    (Ask::Step, Got::Stepped, 25, false),
    (Ask::Step, Got::Stepped, 26, false),
    (Ask::Step, Got::Stepped, 29, true),
    (Ask::Feed(b'd'), Got::Fed, 30, false),
    (Ask::Step, Got::Stepped, 33, false),
    (Ask::Step, Got::Stepped, 34, false),
    (Ask::Step, Got::Stepped, 36, false),
    (Ask::Drain, Got::Drained, 38, true),
];

/// Two localities, where a number was called eight times, and no call has gone out: the ninth asks for credit. Line; Fire; Asked; nine
/// Outs. Each call: In; Fire; Done and Sent; Out. The ask: In and Count; Out. Eight answers: In. In, Given, Split, Done and Sent. The first
/// answer: Fire; Done and Merge. Seven others: Fire; Done and Up. Eight Outs; the ninth call; seven times In and Count; In; Fire; Done and
/// Up; Out; In and Count.
pub const ASKED_AT_TWO: [Row; 6] = [
    (Ask::Feed(b'a'), Got::Fed, 55, false),
    (Ask::Fire(0), Got::Fired(0), 56, false),
    (Ask::Finish, Got::Asking, 57, false),
    (Ask::Pump(0), Got::Moved, 58, false),
    (Ask::Take, Got::Moved, 59, false),
    (Ask::Drain, Got::Drained, 180, true),
];
