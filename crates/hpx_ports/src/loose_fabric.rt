//! A fabric that brings what it is told to, whatever was sent.
ghost use Rattle.std.specs.Prelude.{◌≡◌, ◌≤◌, [], None, Ok, drop};
ghost use Rattle.hpx_ports.specs.Faults.{Rose};
ghost use Rattle.hpx_ports.specs.Heard.{heard_of, answer_in, failed_by};

use crate::fabric::Fabric;
use crate::fault::{FabricFault, raise};
use crate::heard::Heard;
use crate::link::Latest;
use hpx_value::items::Bytes;
use std::collections::VecDeque;
use std::marker::Model;

/// It takes each frame, and carries none: its deliveries answer what it was given, in order, and then nothing for ever. It tells
/// nothing.
#[derive(Drop)]
pub struct LooseFabric {
    answers: VecDeque<Result<Option<(u32, Bytes)>, FabricFault>>,
    heard: Heard,
    faults: u64,
}

impl Model for LooseFabric {
    ghost use Rattle.hpx_ports.specs.Carriage.{LooseState};

    ghost Value = { LooseState };

    ghost view = { λ f. record { answers = f.answers.items; latest = f.heard; faults = f.faults } };
}

impl LooseFabric {
    /// These are the answers of its deliveries.
    pub fn new(answers: VecDeque<Result<Option<(u32, Bytes)>, FabricFault>>) -> LooseFabric
        ensures { result ≡ record { answers = answers.items; latest = Latest.Never; faults = 0 } }
    {
        LooseFabric {
            answers,
            heard: Heard::never(),
            faults: 0,
        }
    }
}

impl Fabric for LooseFabric {
    ghost faults = { λ f. f.faults };

    ghost latest = { λ f. f.latest };

    ghost flight = { λ f. None };

    ghost trace = { λ f. None };

    fn send(&mut self, _from: u32, _to: u32, _frame: &[u8]) -> Result<(), FabricFault>
        ensures taken { result ≡ Ok tt }
        ensures stays { self.new ≡ self.old }
    {
        Ok(())
    }

    fn deliver(&mut self) -> Result<Option<(u32, Bytes)>, FabricFault>
        ensures answer { result ≡ answer_in self.old.answers }
        ensures left { self.new ≡ record { answers = drop 1 self.old.answers; latest = heard_of result; faults = failed_by result self.old.faults } }
        ensures never_falls { self.old.faults ≤ self.new.faults }
    {
        let answer = self.answers.pop_front().unwrap_or(Ok(None));
        match &answer {
            Ok(got) => self.heard = Heard::of(got),
            Err(fault) => {
                self.heard = Heard::fault();
                if *fault == FabricFault::Failed {
                    self.faults = raise(self.faults);
                }
            }
        }
        answer
    }
}
