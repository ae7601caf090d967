//! The stock of a hand: its ids, and who names them. Where an id does not last for all who name it, halves are taken ahead for
//! those who name it first, and more credit is asked for.
ghost use Rattle.std.specs.Prelude.{◌≡◌, ◌<◌, ◌≤◌, ◌+◌, ◌^◌, ℕ, IfOk, OnOk, length, map};
ghost use Rattle.hpx_value.specs.Hands.{id_at};
ghost use Rattle.hpx_commit.specs.Deals.{log_of, AreWithin};
ghost use Rattle.hpx_commit.specs.Stocks.{first_moved, take_half, take_halves, halvings, split_place, ahead, short_places, replaced, replaced_from, stripped};

use crate::deal::{half, lasts, log_of, named};
use crate::hand::id_at;
use hpx_value::gid::Gid;
use hpx_value::memory::OutOfMemory;
use std::alloc::Global;
use std::marker::Model;

/// A number of ids. More than there can be are answered like want of memory.
fn count(ids: usize) -> Result<u32, OutOfMemory>
    ensures { IfOk result (λ n. n ≡ ids) }
{
    match u32::try_from(ids) {
        Ok(n) => Ok(n),
        Err(_) => Err(OutOfMemory),
    }
}

/// Lets the first that names a place name another instead.
fn move_first(places: &mut [u32], from: u32, to: u32)
    ensures { places.new ≡ first_moved from to places.old }
{
    for i in 0..places.len() {
        if places[i] == from {
            places[i] = to;
            return;
        }
    }
}

/// How often an id is halved ahead where so many name it.
pub fn halvings(id: Gid, names: usize) -> usize
    ensures { result ≡ halvings id names }
{
    names.saturating_sub(1).min(log_of(id) as usize)
}

/// Ids, and the places among them that are named, in order.
#[derive(Drop)]
pub struct Stock {
    hand: Vec<Gid>,
    places: Vec<u32>,
}

impl Model for Stock {
    ghost use Rattle.hpx_commit.specs.Stocks.{Stock};

    ghost Value = { Stock };

    ghost view = { λ s. record { hand = s.hand.items; places = s.places.items } };
}

impl Stock {
    /// A stock of its own of these ids and places.
    pub fn of(alloc: Global, hand: &[Gid], places: &[u32]) -> Result<Stock, OutOfMemory>
        ensures { IfOk result (λ s. s ≡ record { hand = hand.now; places = places.now }) }
    {
        Ok(Stock {
            hand: Vec::from_slice(alloc, hand)?,
            places: Vec::from_slice(alloc, places)?,
        })
    }

    /// The ids.
    pub fn hand(&self) -> &[Gid]
        ensures { result.now ≡ self.now.hand }
    {
        self.hand.as_slice()
    }

    /// The places.
    pub fn places(&self) -> &[u32]
        ensures { result.now ≡ self.now.places }
    {
        self.places.as_slice()
    }

    /// Halves the id at a place; one half is for the first that names the place.
    fn take_half(&mut self, place: u32) -> Result<(), OutOfMemory>
        requires here { place < length self.old.hand }
        requires log { 1 ≤ log_of (id_at self.old.hand place).log }
        ensures { OnOk result (self.new ≡ take_half place self.old) }
    {
        let last = count(self.hand.len())?;
        let part = half(id_at(self.hand.as_slice(), place as usize));
        self.hand[place as usize] = part;
        self.hand.push(part)?;
        move_first(self.places.as_mut_slice(), place, last);
        Ok(())
    }

    /// Halves the id at a place so many times.
    fn take_halves(&mut self, place: u32, times: usize) -> Result<(), OutOfMemory>
        requires here { place < length self.old.hand }
        requires log { times ≤ log_of (id_at self.old.hand place).log }
        ensures { OnOk result (self.new ≡ take_halves times place self.old) }
    {
        for _i in 0..times {
            self.take_half(place)?;
        }
        Ok(())
    }

    /// Halves the id at a place as often as those who name it need and its log allows.
    fn split_place(&mut self, place: u32) -> Result<(), OutOfMemory>
        requires here { place < length self.old.hand }
        ensures { OnOk result (self.new ≡ split_place place self.old) }
    {
        let id = id_at(self.hand.as_slice(), place as usize);
        let names = named(self.places.as_slice(), place);
        self.take_halves(place, halvings(id, names))
    }

    /// Splits the first n places ahead.
    fn split_first(&mut self, n: u32) -> Result<(), OutOfMemory>
        requires fits { n ≤ length self.old.hand }
        ensures { OnOk result (self.new ≡ ahead n self.old) }
    {
        for place in 0..n {
            self.split_place(place)?;
        }
        Ok(())
    }

    /// Those of the first n places whose ids do not last for all who name them.
    pub fn short_places(&self, alloc: Global, n: u32) -> Result<Vec<u32>, OutOfMemory>
        ensures { IfOk result (λ short. short.items ≡ short_places n self.now) }
    {
        let mut short = Vec::new(alloc);
        for place in 0..n {
            let id = id_at(self.hand(), place as usize);
            if !lasts(id, named(self.places(), place)) {
                short.push(place)?;
            }
        }
        Ok(short)
    }

    /// The ids at these places.
    pub fn ids_at(&self, alloc: Global, places: &[u32]) -> Result<Vec<Gid>, OutOfMemory>
        ensures { IfOk result (λ ids. ids.items ≡ map (id_at self.now.hand) places.now) }
    {
        let mut ids = Vec::new(alloc);
        for place in places {
            ids.push(id_at(self.hand(), *place as usize))?;
        }
        Ok(ids)
    }

    /// Takes the credit of the ids at these places.
    pub fn strip(&mut self, places: &[u32])
        requires { AreWithin self.old.hand places.now }
        ensures { self.new ≡ stripped places.now self.old }
    {
        for place in places {
            let id = id_at(self.hand(), *place as usize);
            self.replace(*place as usize, id.bare());
        }
    }

    /// Puts another id at a place.
    pub fn replace(&mut self, place: usize, id: Gid)
        requires { place < length self.old.hand }
        ensures { self.new ≡ replaced place id self.old }
    {
        self.hand[place] = id;
    }

    /// Puts other ids at the places from a place on.
    pub fn replace_from(&mut self, first: usize, ids: &[Gid])
        requires few { length self.old.hand < 2 ^ 32 }
        requires fits { first + length ids.now ≤ length self.old.hand }
        ensures { self.new ≡ replaced_from first ids.now self.old }
    {
        for (i, id) in ids.iter().enumerate() {
            self.replace(first + i, *id);
        }
    }
}

/// The stock of these ids and places, with the first n places split ahead.
pub fn split_ahead(
    alloc: Global,
    hand: &[Gid],
    places: &[u32],
    n: u32,
) -> Result<Stock, OutOfMemory>
    requires { n ≤ length hand.now }
    ensures { IfOk result (λ s. s ≡ ahead n (record { hand = hand.now; places = places.now })) }
{
    let mut stock = Stock::of(alloc, hand, places)?;
    stock.split_first(n)?;
    Ok(stock)
}
