//! Ids of a hand that are halved, and ids that are asked for, as they are written.
ghost use Rattle.std.specs.Prelude.{◌≡◌, ◌≤◌, ◌<◌, ◌+◌, ◌^◌, ◌++◌, ℕ, length};
ghost use Rattle.hpx_value.specs.Hands.{id_at};
ghost use Rattle.hpx_part.specs.Parts.{at_all};
ghost use Rattle.hpx_commit.specs.Deals.{Lasts, half, named};
ghost use Rattle.hpx_tables.specs.Splits.{first_cuts, asked_events, cuts, splits_from};

use hpx_commit::deal::named;
use hpx_commit::stock::halvings;
use hpx_journal::entry::{Entry, Event};
use hpx_journal::journal::Journal;
use hpx_value::gid::Gid;

/// Writes the splits of one id that so many name.
fn push_cuts(book: &mut Journal, here: u32, id: Gid, n: usize)
    requires lasts { Lasts id n }
    requires page { length (cuts id n) ≤ book.old.spare }
    ensures entries { book.new.entries ≡ book.old.entries ++ at_all here (cuts id n) }
    ensures page { book.new.spare + length (cuts id n) ≡ book.old.spare }
{
    let times = n.saturating_sub(1);
    let mut rest = id;
    for _i in 0..times {
        rest = push_cut(book, here, rest);
    }
}

/// Writes one split, and answers a half.
fn push_cut(book: &mut Journal, here: u32, id: Gid) -> Gid
    requires lasts { Lasts id 2 }
    requires page { 1 ≤ book.old.spare }
    ensures half { result ≡ half id }
    ensures entries { book.new.entries ≡ book.old.entries ++ at_all here (cuts id 2) }
    ensures page { book.new.spare + 1 ≡ book.old.spare }
{
    match id.log() {
        Some(log) => {
            book.push(Entry {
                at: here,
                event: Event::Split {
                    object: id.bare(),
                    log,
                },
            });
            id.with_log(log - 1)
        }
        None => id,
    }
}

/// Writes the splits of a hand whose places are named.
pub fn push_splits(book: &mut Journal, here: u32, hand: &[Gid], places: &[u32])
    requires few { length hand.now < 2 ^ 32 }
    requires lasts { (p : ℕ) → Lasts (id_at hand.now p) (named places.now p) }
    requires page { length (splits_from 0 hand.now places.now) ≤ book.old.spare }
    ensures entries { book.new.entries ≡ book.old.entries ++ at_all here (splits_from 0 hand.now places.now) }
    ensures page { book.new.spare + length (splits_from 0 hand.now places.now) ≡ book.old.spare }
{
    for (p, id) in hand.iter().enumerate() {
        push_cuts(book, here, *id, named(places, p as u32));
    }
}

/// Writes the splits of the first so many of a hand, as far as their logs go.
pub fn push_first_splits(book: &mut Journal, here: u32, hand: &[Gid], places: &[u32], own: u32)
    requires own { own ≤ length hand.now }
    requires page { length (first_cuts own 0 hand.now places.now) ≤ book.old.spare }
    ensures entries { book.new.entries ≡ book.old.entries ++ at_all here (first_cuts own 0 hand.now places.now) }
    ensures page { book.new.spare + length (first_cuts own 0 hand.now places.now) ≡ book.old.spare }
{
    for p in 0..own {
        let id = hand[p as usize];
        let times = halvings(id, named(places, p));
        push_cuts(book, here, id, times + 1);
    }
}

/// Writes that each of these ids is asked for.
pub fn push_asks(book: &mut Journal, here: u32, ids: &[Gid])
    requires page { length ids.now ≤ book.old.spare }
    ensures entries { book.new.entries ≡ book.old.entries ++ at_all here (asked_events ids.now) }
{
    for id in ids {
        book.push(Entry {
            at: here,
            event: Event::Asked { object: id.bare() },
        });
    }
}
