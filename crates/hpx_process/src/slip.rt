//! A slip: the one question of processes that compute.
use crate::problem::Problem;
use crate::show::show;
use hpx_journal::journal::Journal;
use hpx_member::lines::{LineFault, Lines};
use hpx_ports::sink::Sink;
use hpx_value::items::Text;
use hpx_value::memory::OutOfMemory;
use std::alloc::Global;

/// Hands a console the one line that asks for what is to be computed, and writes what is printed. It has no source.
#[derive(Drop)]
pub struct Slip<'k, K: Sink> {
    pub(crate) problem: Problem,
    pub(crate) asked: bool,
    pub(crate) sink: &'k mut K,
}

impl<'k, K: Sink> Lines for Slip<'k, K> {
    ghost use Rattle.std.specs.Prelude.{◌≡◌, false};
    ghost use Rattle.hpx_process.specs.Memberships.{problem_line};
    ghost use Rattle.hpx_process.specs.Slips.{HasPassed, HasStuck, note};

    ghost reads = { λ d. 0 };

    ghost writes = { λ d. K.faults d.sink.now };

    ghost full = { λ d. false };

    ghost went = { λ first now talk. (now.sink.ghost_name ≡ first.sink.ghost_name) × (now.problem ≡ first.problem)
        × HasPassed (problem_line first.problem) (note first.asked (K.held first.sink.now)) (note now.asked (K.held now.sink.now)) talk };

    ghost broke = { λ first now fault talk tried. (now.sink.ghost_name ≡ first.sink.ghost_name) × (now.problem ≡ first.problem)
        × HasStuck (problem_line first.problem) (note first.asked (K.held first.sink.now)) (note now.asked (K.held now.sink.now)) fault talk tried };

    fn next(&mut self, alloc: Global) -> Result<Option<Text>, LineFault> {
        if self.asked {
            return Ok(None);
        }
        match self.problem.line(alloc) {
            Ok(line) => {
                self.asked = true;
                Ok(Some(line))
            }
            Err(OutOfMemory) => Err(LineFault::OutOfMemory),
        }
    }

    fn show(&mut self, journal: &Journal, cut: u64) -> Result<(), LineFault> {
        show(journal, cut, self.sink)
    }
}
