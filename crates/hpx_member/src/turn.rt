//! What a node does by itself: no frame goes or comes.
ghost use Rattle.std.specs.Prelude.{◌≡◌, false, Ok, IfErr};
ghost use Rattle.hpx_journal.specs.Weights.{HasRoom};
ghost use Rattle.hpx_steps.specs.Rest.{Stands};
ghost use Rattle.hpx_member.specs.Seats.{Stays};
ghost use Rattle.hpx_member.specs.Stops.{MayStop};

use crate::stop::{Stop, stop_of_desk};
use hpx_journal::journal::Journal;
use hpx_node::node::Node;
use hpx_value::acts::{Acts, Done};
use std::alloc::Global;

/// The first action that can be is fired, run and committed. False where there is none.
fn work<A: Acts + Copy>(
    alloc: Global,
    acts: &A,
    node: &mut Node<A>,
    book: &mut Journal,
) -> Result<bool, Stop>
    requires room { HasRoom book.old.entries }
    requires stands { Stands A.act_of node.old.tables book.old.entries }
    ensures stays { Stays A.act_of node.old.tables node.new.tables book.old.entries book.new.entries }
    ensures none { result ≡ Ok false → book.new.entries ≡ book.old.entries }
    ensures stops { IfErr result (MayStop node.new.tables book.new.entries) }
{
    let job = match node.fire(alloc, book) {
        Ok(Some(job)) => job,
        Ok(None) => return Ok(false),
        Err(_) => return Err(Stop::OutOfMemory),
    };
    let done = match Done::compute(alloc, acts, job) {
        Ok(done) => done,
        Err(_) => return Err(Stop::OutOfMemory),
    };
    if !book.room() {
        return Err(Stop::JournalFull);
    }
    match node.finish(alloc, book, done) {
        Ok(_) => Ok(true),
        Err(_) => Err(Stop::OutOfMemory),
    }
}

/// An object leaves, or the first message to the own locality is dealt with. False where there is neither.
fn tend<A: Acts + Copy>(alloc: Global, node: &mut Node<A>, book: &mut Journal) -> Result<bool, Stop>
    requires room { HasRoom book.old.entries }
    requires stands { Stands A.act_of node.old.tables book.old.entries }
    ensures stays { Stays A.act_of node.old.tables node.new.tables book.old.entries book.new.entries }
    ensures none { result ≡ Ok false → book.new.entries ≡ book.old.entries }
    ensures stops { IfErr result (MayStop node.new.tables book.new.entries) }
{
    match node.desk(alloc, book) {
        Ok(did) => Ok(did),
        Err(fault) => Err(stop_of_desk(node.here(), fault)),
    }
}

/// One turn of the node's own: an action is run, or else the node tends to its own. False where there is nothing to be done.
pub(crate) fn turn<A: Acts + Copy>(
    alloc: Global,
    acts: &A,
    node: &mut Node<A>,
    book: &mut Journal,
) -> Result<bool, Stop>
    requires room { HasRoom book.old.entries }
    requires stands { Stands A.act_of node.old.tables book.old.entries }
    ensures stays { Stays A.act_of node.old.tables node.new.tables book.old.entries book.new.entries }
    ensures none { result ≡ Ok false → book.new.entries ≡ book.old.entries }
    ensures stops { IfErr result (MayStop node.new.tables book.new.entries) }
{
    if work(alloc, acts, node, book)? {
        return Ok(true);
    }
    tend(alloc, node, book)
}
