//! The line that asks for a ring of points.
ghost use Rattle.std.specs.Prelude.{◌≡◌, IfOk};
ghost use Rattle.app_compute.specs.Stencil.{shape_by, shape_in, shape_of, stencil_line};

use crate::line::{number_in, words};
use hpx_value::items::{Items, Text};
use hpx_value::memory::OutOfMemory;
use std::alloc::Global;

/// A ring of points in parts of the same size, and how often it is stepped.
#[derive(Clone, Copy, Debug, PartialEq, Eq)]
pub struct Shape {
    pub points: u32,
    pub parts: u32,
    pub steps: u32,
}

const MOST_POINTS: u32 = 1024;

const MOST_PARTS: u32 = 32;

const MOST_STEPS: u32 = 1000;

/// The line that asks for a ring.
pub fn stencil_line(alloc: Global, points: u32, parts: u32, steps: u32) -> Result<Text, OutOfMemory>
    ensures { IfOk result (λ line. line ≡ stencil_line points parts steps) }
{
    Ok(Items::from_vec(format!(in alloc; "stencil {points} {parts} {steps}")?.into_bytes()))
}

/// The ring that a line asks for.
pub fn shape_of(alloc: Global, line: &[u8]) -> Result<Option<Shape>, OutOfMemory>
    ensures { IfOk result (λ shape. shape ≡ shape_of line.now) }
{
    let words = words(alloc, line)?;
    Ok(match words.as_slice() {
        [word, points, parts, steps] if *word == b"stencil".as_slice() => shape_by(
            number_in(MOST_POINTS, points),
            number_in(MOST_PARTS, parts),
            number_in(MOST_STEPS, steps),
        ),
        _ => None,
    })
}

/// A ring with these numbers, if they are those of one.
fn shape_by(points: Option<u32>, parts: Option<u32>, steps: Option<u32>) -> Option<Shape>
    ensures { result ≡ shape_by points parts steps }
{
    match (points, parts, steps) {
        (Some(points), Some(parts), Some(steps))
            if 1 <= points && 1 <= parts && points % parts == 0 => {
            Some(Shape {
                points,
                parts,
                steps,
            })
        }
        _ => None,
    }
}
