//! The program as a function of what surrounds it: its words, what starts programs, and its output for errors.
ghost use Rattle.hpx_launch.specs.Launches.{HasLaunched, told};

use crate::fault::LaunchFault;
use crate::launch::{launch, say};
use hpx_ports::sink::Sink;
use hpx_ports::spawner::Spawner;
use hpx_ports::words::{Words, all_words};
use hpx_value::memory::OutOfMemory;
use std::alloc::Global;

/// Launches what the words ask for that it is started with. Where there is no memory for them, nothing is started, and the status is 6.
pub fn program<W: Words, P: Spawner, E: Sink>(
    alloc: Global,
    given: &W,
    spawner: &mut P,
    err: &mut E,
) -> u8
    ensures { let x = told (P.started spawner.old) (P.ended spawner.old) (P.faults spawner.old) in
        let z = told (P.started spawner.new) (P.ended spawner.new) (P.faults spawner.new) in
        HasLaunched (W.words given.now) result x z (record { held = E.held err.old; faults = E.faults err.old }) (record { held = E.held err.new; faults = E.faults err.new }) }
{
    match all_words(alloc, given) {
        Ok(words) => launch(alloc, &words, spawner, err),
        Err(OutOfMemory) => {
            say(err, LaunchFault::OutOfMemory.line());
            LaunchFault::OutOfMemory.status()
        }
    }
}
