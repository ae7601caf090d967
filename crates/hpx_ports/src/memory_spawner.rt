//! A spawner in memory, which is told how its children end.
ghost use Rattle.std.specs.Prelude.{◌≡◌, ◌≤◌, ◌↔◌, ◌∷◌, ◌++◌, [], Some, IsTrue, length, IfOk, OnOk, OnErr, IsErrOf};
ghost use Rattle.hpx_ports.specs.Faults.{Rose, raised};
ghost use Rattle.hpx_ports.specs.Plans.{fails_next, after_call};
ghost use Rattle.hpx_ports.specs.Spawns.{status_at, fails_wait};

use crate::fault::raise;
use crate::plan::Plan;
use crate::spawner::{SpawnFault, Spawner};
use hpx_value::exact::Exact;
use hpx_value::items::{Bytes, Lengths, Text, Texts};
use std::alloc::Global;
use std::marker::Model;

/// A spawner in memory: it starts nothing, and each child ends with the status that it was given.
#[derive(Drop)]
pub struct MemSpawner {
    alloc: Global,
    statuses: Bytes,
    started: Vec<(Text, Texts)>,
    ended: Vec<(u32, u8)>,
    starts: Plan,
    waits: Plan,
    faults: u64,
}

impl Model for MemSpawner {
    ghost use Rattle.hpx_ports.specs.Spawns.{SpawnState};

    ghost Value = { SpawnState };

    ghost view = { λ s. record {
      started = s.started.items;
      ended = s.ended.items;
      statuses = s.statuses;
      starts = s.starts;
      waits = s.waits;
      faults = s.faults;
    } };
}

impl MemSpawner {
    /// The children end with these statuses, in the order in which they were started. The starts
    /// and the waits with these numbers are to fail, from 1.
    pub fn new(alloc: Global, statuses: Bytes, starts: Lengths, waits: Lengths) -> MemSpawner
        ensures { result ≡ record {
          started = [];
          ended = [];
          statuses = statuses;
          starts = record { numbers = starts; calls = 0 };
          waits = record { numbers = waits; calls = 0 };
          faults = 0;
        } }
    {
        MemSpawner {
            alloc,
            statuses,
            started: Vec::new(alloc),
            ended: Vec::new(alloc),
            starts: Plan {
                numbers: starts,
                calls: 0,
            },
            waits: Plan {
                numbers: waits,
                calls: 0,
            },
            faults: 0,
        }
    }

    /// What was started: the program and its words, oldest first.
    pub fn started(&self) -> &[(Text, Texts)]
        ensures { result.now ≡ self.now.started }
    {
        self.started.as_slice()
    }

    /// Which children were waited for, and their statuses.
    pub fn ended(&self) -> &[(u32, u8)]
        ensures { result.now ≡ self.now.ended }
    {
        self.ended.as_slice()
    }

    /// How many calls failed, but for want of memory.
    pub fn faults(&self) -> u64
        ensures { result ≡ self.now.faults }
    {
        self.faults
    }

    /// The status with which a child ends that was started.
    fn status_of(&self, child: u32) -> Option<u8>
        ensures { result ≡ status_at self.now child }
    {
        if child as usize >= self.started.len() {
            return None;
        }
        self.statuses.as_slice().get(child as usize).copied()
    }
}

impl Spawner for MemSpawner {
    ghost faults = { λ s. s.faults };

    ghost started = { λ s. s.started };

    ghost ended = { λ s. s.ended };

    fn start(&mut self, program: &Text, words: &Texts) -> Result<u32, SpawnFault>
        ensures planned { IsErrOf result SpawnFault.Failed ↔ IsTrue (fails_next self.old.starts) }
        ensures place { IfOk result (λ child. child ≡ length self.old.started) }
        ensures ok { OnOk result (self.new ≡ record self.old { started = self.old.started ++ (program.now, words.now) ∷ []; starts = after_call self.old.starts }) }
        ensures failed { IsErrOf result SpawnFault.Failed → self.new ≡ record self.old { starts = after_call self.old.starts; faults = raised self.old.faults } }
        ensures no_memory { IsErrOf result SpawnFault.OutOfMemory → self.new ≡ record self.old { starts = after_call self.old.starts } }
        ensures started_err { OnErr result (self.new.started ≡ self.old.started) }
        ensures ended { self.new.ended ≡ self.old.ended }
        ensures cause { IsErrOf result SpawnFault.Failed → Rose self.old.faults self.new.faults }
        ensures never_falls { self.old.faults ≤ self.new.faults }
    {
        if self.starts.next_fails() {
            self.faults = raise(self.faults);
            return Err(SpawnFault::Failed);
        }
        let Ok(place) = u32::try_from(self.started.len()) else {
            return Err(SpawnFault::OutOfMemory);
        };
        let started = (program.duplicate(self.alloc)?, words.duplicate(self.alloc)?);
        if self.started.push(started).is_err() {
            return Err(SpawnFault::OutOfMemory);
        }
        Ok(place)
    }

    fn wait(&mut self, child: u32) -> Result<u8, SpawnFault>
        ensures planned { IsErrOf result SpawnFault.Failed ↔ IsTrue (fails_wait self.old child) }
        ensures given { IfOk result (λ status. status_at self.old child ≡ Some status) }
        ensures ok { IfOk result (λ status. self.new ≡ record self.old { ended = self.old.ended ++ (child, status) ∷ []; waits = after_call self.old.waits }) }
        ensures failed { IsErrOf result SpawnFault.Failed → self.new ≡ record self.old { waits = after_call self.old.waits; faults = raised self.old.faults } }
        ensures no_memory { IsErrOf result SpawnFault.OutOfMemory → self.new ≡ record self.old { waits = after_call self.old.waits } }
        ensures ended_err { OnErr result (self.new.ended ≡ self.old.ended) }
        ensures started { self.new.started ≡ self.old.started }
        ensures cause { IsErrOf result SpawnFault.Failed → Rose self.old.faults self.new.faults }
        ensures never_falls { self.old.faults ≤ self.new.faults }
    {
        let fails = self.waits.next_fails();
        let status = self.status_of(child);
        match status {
            Some(status) if !fails => {
                if self.ended.push((child, status)).is_err() {
                    return Err(SpawnFault::OutOfMemory);
                }
                Ok(status)
            }
            _ => {
                self.faults = raise(self.faults);
                Err(SpawnFault::Failed)
            }
        }
    }
}
