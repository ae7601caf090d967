use hpx_commit::deal::{log_of, named};
use hpx_commit::hand::id_at;
use hpx_commit::stock::split_ahead;
use hpx_value::gid::Gid;
use hpx_value::memory::OutOfMemory;

/// Rows for 1 to 8 who name an id, columns for its log from 0 to 8: the log that it has left.
const LOGS: [[u8; 9]; 8] = [
    [0, 1, 2, 3, 4, 5, 6, 7, 8],
    [0, 0, 1, 2, 3, 4, 5, 6, 7],
    [0, 0, 0, 1, 2, 3, 4, 5, 6],
    [0, 0, 0, 0, 1, 2, 3, 4, 5],
    [0, 0, 0, 0, 0, 1, 2, 3, 4],
    [0, 0, 0, 0, 0, 0, 1, 2, 3],
    [0, 0, 0, 0, 0, 0, 0, 1, 2],
    [0, 0, 0, 0, 0, 0, 0, 0, 1],
];

/// How many are still to get of it.
const NAMES: [[usize; 9]; 8] = [
    [1, 1, 1, 1, 1, 1, 1, 1, 1],
    [2, 1, 1, 1, 1, 1, 1, 1, 1],
    [3, 2, 1, 1, 1, 1, 1, 1, 1],
    [4, 3, 2, 1, 1, 1, 1, 1, 1],
    [5, 4, 3, 2, 1, 1, 1, 1, 1],
    [6, 5, 4, 3, 2, 1, 1, 1, 1],
    [7, 6, 5, 4, 3, 2, 1, 1, 1],
    [8, 7, 6, 5, 4, 3, 2, 1, 1],
];

/// How many ids there are then.
const IDS: [[usize; 9]; 8] = [
    [1, 1, 1, 1, 1, 1, 1, 1, 1],
    [1, 2, 2, 2, 2, 2, 2, 2, 2],
    [1, 2, 3, 3, 3, 3, 3, 3, 3],
    [1, 2, 3, 4, 4, 4, 4, 4, 4],
    [1, 2, 3, 4, 5, 5, 5, 5, 5],
    [1, 2, 3, 4, 5, 6, 6, 6, 6],
    [1, 2, 3, 4, 5, 6, 7, 7, 7],
    [1, 2, 3, 4, 5, 6, 7, 8, 8],
];

#[test]
fn splits_as_far_as_the_log_goes(rt: HostRuntime) -> Result<(), OutOfMemory> {
    let alloc = rt.alloc();
    for names in 1..9 {
        for log in 0..9u8 {
            let id = Gid::new(0, 16, 1).with_log(log);
            let places = [0u32; 8];
            let stock = split_ahead(alloc, &[id], &places[..names], 1)?;
            let row = names - 1;
            let column = log as usize;
            let short = stock.short_places(alloc, 1)?;
            assert!(rt; log_of(id_at(stock.hand(), 0)) == LOGS[row][column]);
            assert!(rt; named(stock.places(), 0) == NAMES[row][column]);
            assert!(rt; stock.hand().len() == IDS[row][column]);
            assert!(rt; short.is_empty() == (NAMES[row][column] < 2));
        }
    }
    Ok(())
}

/// Two objects are named in turn, and a third is made: the first has too little for three, the second enough for two.
#[test]
fn halves_go_to_the_first_that_name_an_id(rt: HostRuntime) -> Result<(), OutOfMemory> {
    let alloc = rt.alloc();
    let first = Gid::new(0, 16, 1);
    let second = Gid::new(0, 17, 2);
    let made = Gid::new(1, 18, 3).with_log(10);
    let hand = [first.with_log(1), second.with_log(7), made];
    let mut stock = split_ahead(alloc, &hand, &[0, 1, 2, 0, 2, 1, 0], 2)?;
    assert!(rt; stock.places() == [3, 4, 2, 0, 2, 1, 0].as_slice());
    let halves = [
        first.with_log(0),
        second.with_log(6),
        made,
        first.with_log(0),
        second.with_log(6),
    ];
    assert!(rt; stock.hand() == halves.as_slice());
    assert!(rt; stock.short_places(alloc, 2)?.as_slice() == [0].as_slice());
    let later = Gid::new(1, 18, 4).with_log(10);
    assert!(rt; stock.hand().len() == 5);
    stock.replace(0, first.with_log(10));
    assert!(rt; stock.short_places(alloc, 2)?.is_empty());
    assert!(rt; stock.hand().len() == 5);
    stock.replace_from(2, &[later]);
    assert!(rt; id_at(stock.hand(), 0) == first.with_log(10));
    assert!(rt; id_at(stock.hand(), 2) == later);
    assert!(rt; id_at(stock.hand(), 3) == first.with_log(0));
    Ok(())
}
