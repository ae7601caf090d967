//! Starts one process for each locality, and waits for all.
ghost use Rattle.std.specs.Prelude.{◌≡◌, IfOk, IfErr, OnOk, IsErrOf, length, ◌++◌};
ghost use Rattle.std.specs.List.{range_with_len};
ghost use Rattle.hpx_ports.specs.Faults.{Rose};
ghost use Rattle.hpx_launch.specs.Lines.{launch_in, starts_of};
ghost use Rattle.hpx_launch.specs.Launches.{Ends, HasAnswer, HasBegun, HasCause, Says, StartsFront, WaitsFor, told};

use crate::fault::LaunchFault;
use crate::line::Launch;
use hpx_ports::sink::{Sink, write_all};
use hpx_ports::spawner::{SpawnFault, Spawner};
use hpx_value::items::{Numbers, Texts};
use std::alloc::Global;

/// Starts a child for each locality, in order, and answers their places among all that were started. After a failure it starts no more.
fn start_all<P: Spawner>(
    alloc: Global,
    launch: &Launch,
    spawner: &mut P,
) -> Result<Numbers, SpawnFault>
    ensures children { IfOk result (λ children. children ≡ range_with_len (length (P.started spawner.old)) launch.now.localities) }
    ensures started { OnOk result (P.started spawner.new ≡ P.started spawner.old ++ starts_of launch.now) }
    ensures front { StartsFront (starts_of launch.now) (P.started spawner.old) (P.started spawner.new) }
    ensures ended { P.ended spawner.new ≡ P.ended spawner.old }
    ensures cause { IsErrOf result SpawnFault.Failed → Rose (P.faults spawner.old) (P.faults spawner.new) }
    ensures stands { (IsErrOf result SpawnFault.Failed → ⊥) → P.faults spawner.new ≡ P.faults spawner.old }
{
    let mut children = Numbers::new(alloc);
    for node in 0..launch.localities {
        let words = launch.child_words(alloc, node)?;
        children.push(spawner.start(&launch.program, &words)?)?;
    }
    Ok(children)
}

/// Waits for children, one after another, and answers the first status that is not 0, else 0. After a failure it waits for no more.
fn wait_all<P: Spawner>(children: &[u32], spawner: &mut P) -> Result<u8, SpawnFault>
    ensures waits { WaitsFor children.now result (P.ended spawner.old) (P.ended spawner.new) }
    ensures started { P.started spawner.new ≡ P.started spawner.old }
    ensures cause { IsErrOf result SpawnFault.Failed → Rose (P.faults spawner.old) (P.faults spawner.new) }
    ensures stands { (IsErrOf result SpawnFault.Failed → ⊥) → P.faults spawner.new ≡ P.faults spawner.old }
{
    let mut first_failure = 0;
    for child in children {
        let status = spawner.wait(*child)?;
        if first_failure == 0 {
            first_failure = status;
        }
    }
    Ok(first_failure)
}

/// What the children answer.
fn answered<P: Spawner>(alloc: Global, words: &Texts, spawner: &mut P) -> Result<u8, LaunchFault>
    ensures ok { let x = told (P.started spawner.old) (P.ended spawner.old) (P.faults spawner.old) in
        let z = told (P.started spawner.new) (P.ended spawner.new) (P.faults spawner.new) in
        IfOk result (λ answer. HasAnswer (launch_in words.now) answer x z) }
    ensures err { let x = told (P.started spawner.old) (P.ended spawner.old) (P.faults spawner.old) in
        let z = told (P.started spawner.new) (P.ended spawner.new) (P.faults spawner.new) in
        IfErr result (λ fault. HasCause fault (launch_in words.now) x z) }
    ensures begun { let x = told (P.started spawner.old) (P.ended spawner.old) (P.faults spawner.old) in
        let z = told (P.started spawner.new) (P.ended spawner.new) (P.faults spawner.new) in
        HasBegun (launch_in words.now) x z }
{
    let launch = Launch::read(alloc, words)?;
    let children = start_all(alloc, &launch, spawner)?;
    Ok(wait_all(children.as_slice(), spawner)?)
}

/// Says something on `err`. Where that fails, nothing comes of it but the front of the line.
pub(crate) fn say<E: Sink>(err: &mut E, line: &[u8])
    ensures { Says line.now (record { held = E.held err.old; faults = E.faults err.old }) (record { held = E.held err.new; faults = E.faults err.new }) }
{
    match write_all(err, line) {
        Ok(()) => (),
        Err(_) => (),
    }
}

/// Starts one child for each locality, waits for all, and answers the first status that is not 0, else 0. Of a child that cannot be
/// started, or ends without a status, it knows no better than to end at once: the others are left alone.
pub fn launch<P: Spawner, E: Sink>(alloc: Global, words: &Texts, spawner: &mut P, err: &mut E) -> u8
    ensures ends { let x = told (P.started spawner.old) (P.ended spawner.old) (P.faults spawner.old) in
        let z = told (P.started spawner.new) (P.ended spawner.new) (P.faults spawner.new) in
        Ends (launch_in words.now) result x z (record { held = E.held err.old; faults = E.faults err.old }) (record { held = E.held err.new; faults = E.faults err.new }) }
    ensures begun { let x = told (P.started spawner.old) (P.ended spawner.old) (P.faults spawner.old) in
        let z = told (P.started spawner.new) (P.ended spawner.new) (P.faults spawner.new) in
        HasBegun (launch_in words.now) x z }
{
    match answered(alloc, words, spawner) {
        Ok(answer) => answer,
        Err(fault) => {
            say(err, fault.line());
            fault.status()
        }
    }
}
