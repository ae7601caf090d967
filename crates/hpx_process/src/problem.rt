//! What can be asked in one line.
ghost use Rattle.std.specs.Prelude.{◌≡◌, ◌∷◌, ◌≤◌, IfOk, length};
ghost use Rattle.app_compute.specs.Lines.{fib_line};
ghost use Rattle.app_compute.specs.Stencil.{stencil_line};
ghost use Rattle.hpx_process.specs.Memberships.{problem_line};

use app_compute::line::{Question, fib_line};
use app_compute::session::MARK;
use app_compute::shape::{Shape, stencil_line};
use app_console::lines::marked;
use hpx_value::items::Text;
use hpx_value::memory::OutOfMemory;
use std::alloc::Global;

/// What is to be computed.
#[derive(Clone, Copy, Debug, PartialEq, Eq)]
pub enum Problem {
    /// A Fibonacci number.
    Number(Question),
    /// A ring of points that is stepped.
    Ring(Shape),
}

/// The line that asks for a Fibonacci number.
fn number_line(alloc: Global, number: u32, threshold: u32) -> Result<Text, OutOfMemory>
    ensures line { IfOk result (λ line. line ≡ fib_line number threshold) }
    ensures short { IfOk result (λ line. length line ≤ 1024) }
{
    fib_line(alloc, number, threshold)
}

/// The line that asks for a ring.
fn ring_line(alloc: Global, points: u32, parts: u32, steps: u32) -> Result<Text, OutOfMemory>
    ensures line { IfOk result (λ line. line ≡ stencil_line points parts steps) }
    ensures short { IfOk result (λ line. length line ≤ 1024) }
{
    stencil_line(alloc, points, parts, steps)
}

impl Problem {
    /// The line that asks for it.
    fn asked(self, alloc: Global) -> Result<Text, OutOfMemory>
        ensures line { IfOk result (λ line. problem_line self ≡ 99 ∷ line) }
        ensures short { IfOk result (λ line. length line ≤ 1024) }
    {
        match self {
            Problem::Number(question) => number_line(alloc, question.number, question.threshold),
            Problem::Ring(shape) => ring_line(alloc, shape.points, shape.parts, shape.steps),
        }
    }

    /// What is fed for it.
    pub fn line(self, alloc: Global) -> Result<Text, OutOfMemory>
        ensures line { IfOk result (λ line. line ≡ problem_line self) }
        ensures short { IfOk result (λ line. length line ≤ 1025) }
    {
        let asked = self.asked(alloc)?;
        marked(alloc, MARK, asked.as_slice())
    }
}
