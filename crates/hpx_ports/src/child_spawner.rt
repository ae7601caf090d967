//! A spawner over the child processes of std. What they do, it does not tell.
ghost use Rattle.std.specs.Prelude.{◌≡◌, ◌≤◌, ◌∷◌, ◌++◌, [], length, IfOk, OnOk, OnErr, IsErrOf};
ghost use Rattle.hpx_ports.specs.Faults.{Rose, raised};

use crate::fault::raise;
use crate::spawner::{SpawnFault, Spawner};
use hpx_value::exact::Exact;
use hpx_value::items::{Text, Texts};
use std::alloc::Global;
use std::marker::Model;
use std::process::{Child, Command, Processes};

/// A spawner over child processes, which have the standard streams of this one.
#[derive(Drop)]
pub struct ChildSpawner<'a, R: Processes> {
    processes: &'a R,
    alloc: Global,
    children: Vec<Child<R::Started>>,
    started: Vec<(Text, Texts)>,
    ended: Vec<(u32, u8)>,
    faults: u64,
}

impl<'a, R: Processes> Model for ChildSpawner<'a, R> {
    ghost use Rattle.hpx_ports.specs.Spawns.{Spawned};

    ghost Value = { Spawned };

    ghost view = { λ s. record { started = s.started.items; ended = s.ended.items; faults = s.faults } };
}

impl<'a, R: Processes> ChildSpawner<'a, R> {
    /// Nothing was started.
    pub fn new(processes: &'a R, alloc: Global) -> ChildSpawner<'a, R>
        ensures { result ≡ record { started = []; ended = []; faults = 0 } }
    {
        ChildSpawner {
            processes,
            alloc,
            children: Vec::new(alloc),
            started: Vec::new(alloc),
            ended: Vec::new(alloc),
            faults: 0,
        }
    }

    /// How many calls failed, but for want of memory.
    pub fn faults(&self) -> u64
        ensures { result ≡ self.now.faults }
    {
        self.faults
    }

    /// A call that fails, and is counted.
    fn failed(&mut self) -> SpawnFault
        ensures fault { result ≡ SpawnFault.Failed }
        ensures rest { self.new ≡ record self.old { faults = raised self.old.faults } }
        ensures never_falls { self.old.faults ≤ self.new.faults }
    {
        self.faults = raise(self.faults);
        SpawnFault::Failed
    }
}

impl<'a, R: Processes> Spawner for ChildSpawner<'a, R> {
    ghost faults = { λ s. s.faults };

    ghost started = { λ s. s.started };

    ghost ended = { λ s. s.ended };

    fn start(&mut self, program: &Text, words: &Texts) -> Result<u32, SpawnFault> {
        let Ok(place) = u32::try_from(self.started.len()) else {
            return Err(SpawnFault::OutOfMemory);
        };
        let started = (program.duplicate(self.alloc)?, words.duplicate(self.alloc)?);
        if self.started.reserve(1).is_err() || self.children.reserve(1).is_err() {
            return Err(SpawnFault::OutOfMemory);
        }
        match spawned(self.processes, self.alloc, program, words) {
            Ok(child) => {
                self.children.push_reserved(child);
                self.started.push_reserved(started);
                Ok(place)
            }
            Err(SpawnFault::Failed) => Err(self.failed()),
            Err(SpawnFault::OutOfMemory) => Err(SpawnFault::OutOfMemory),
        }
    }

    fn wait(&mut self, child: u32) -> Result<u8, SpawnFault> {
        if self.ended.reserve(1).is_err() {
            return Err(SpawnFault::OutOfMemory);
        }
        let status = match self.children.get_mut(child as usize) {
            Some(child) => status_of(child),
            None => None,
        };
        match status {
            Some(status) => {
                self.ended.push_reserved((child, status));
                Ok(status)
            }
            None => Err(self.failed()),
        }
    }
}

/// A program that was started. Words that are not UTF-8 cannot be handed to it.
fn spawned<R: Processes>(
    processes: &R,
    alloc: Global,
    program: &Text,
    words: &Texts,
) -> Result<Child<R::Started>, SpawnFault> {
    let Ok(mut command) = Command::new(alloc, written(program)?) else {
        return Err(SpawnFault::OutOfMemory);
    };
    for word in words.as_slice() {
        if command.arg(written(word)?).is_err() {
            return Err(SpawnFault::OutOfMemory);
        }
    }
    match command.spawn(processes) {
        Ok(child) => Ok(child),
        Err(_) => Err(SpawnFault::Failed),
    }
}

/// A text as UTF-8.
fn written(text: &Text) -> Result<&str, SpawnFault> {
    match std::str::from_utf8(text.as_slice()) {
        Ok(text) => Ok(text),
        Err(_) => Err(SpawnFault::Failed),
    }
}

/// The status of a child, once it has ended; none where it ended without one.
fn status_of<P: std::process::OpenProcess>(child: &mut Child<P>) -> Option<u8> {
    let status = child.wait().ok()?;
    u8::try_from(status.code()?).ok()
}
