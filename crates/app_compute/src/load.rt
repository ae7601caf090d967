//! A long session that is made from a number.
ghost use Rattle.std.specs.Prelude.{◌≡◌, ◌≤◌, ◌++◌, ◌+◌, ◌*◌, ◌/◌, ◌%◌, ◌^◌, codes, OnOk, IfOk};
ghost use Rattle.app_compute.specs.Load.{generated, line_by, line_of, line_with, lines_from, next_number, objects_from};

use hpx_value::items::{Items, Text, Texts};
use hpx_value::memory::OutOfMemory;
use std::alloc::Global;

/// How many objects there are.
const OBJECTS: u32 = 8;

/// The numbers are below this.
const MODULUS: u64 = 1 << 31;

/// The lines of the session at n localities, which are made from a number to start with: first those that make the eight
/// objects, and then so many more. What each name stands for in the end is asked by who runs them.
pub fn generated(alloc: Global, start: u32, lines: u32, n: u32) -> Result<Texts, OutOfMemory>
    requires { 1 ≤ n }
    ensures { IfOk result (λ texts. texts ≡ generated start lines n) }
{
    let mut texts = Items::new(alloc);
    push_objects(alloc, &mut texts, n)?;
    push_lines(alloc, &mut texts, start, lines, n)?;
    Ok(texts)
}

/// The lines that make the objects.
fn push_objects(alloc: Global, texts: &mut Texts, n: u32) -> Result<(), OutOfMemory>
    requires { 1 ≤ n }
    ensures { OnOk result (texts.new ≡ texts.old ++ objects_from n 0 8) }
{
    for j in 0..OBJECTS {
        texts.push(line_with(alloc, "new", j, j % n)?)?;
    }
    Ok(())
}

/// So many lines that follow from a number.
fn push_lines(
    alloc: Global,
    texts: &mut Texts,
    start: u32,
    lines: u32,
    n: u32,
) -> Result<(), OutOfMemory>
    requires { 1 ≤ n }
    ensures { OnOk result (texts.new ≡ texts.old ++ lines_from n start lines) }
{
    let mut number = start;
    for _ in 0..lines {
        number = next_number(number);
        texts.push(line_of(alloc, n, number / 65536)?)?;
    }
    Ok(())
}

/// The number that follows.
pub fn next_number(number: u32) -> u32
    ensures { result ≡ next_number number }
{
    ((u64::from(number) * 1_103_515_245 + 12_345) % MODULUS) as u32
}

/// The line of a number at n localities.
pub fn line_of(alloc: Global, n: u32, number: u32) -> Result<Text, OutOfMemory>
    requires { 1 ≤ n }
    ensures { IfOk result (λ line. line ≡ line_of n number) }
{
    let does = number / 8 % 8;
    line_by(alloc, does, number % 8, number / 64 % n, number % 100)
}

/// The line that does this, with an object.
fn line_by(
    alloc: Global,
    does: u32,
    object: u32,
    place: u32,
    number: u32,
) -> Result<Text, OutOfMemory>
    ensures { IfOk result (λ line. line ≡ line_by does object place number) }
{
    match does {
        0 => line_with(alloc, "new", object, place),
        1 | 2 | 3 => line_with(alloc, "add", object, number),
        4 => line_with(alloc, "move", object, place),
        5 => line_with(alloc, "share", object, place),
        6 => line_with(alloc, "unshare", object, place),
        _ => Ok(Items::from_vec(format!(in alloc; "drop o{object}")?.into_bytes())),
    }
}

/// A word, the name of an object, and a number.
pub fn line_with(alloc: Global, word: &str, object: u32, number: u32) -> Result<Text, OutOfMemory>
    ensures { IfOk result (λ line. line ≡ line_with word.now object number) }
{
    Ok(Items::from_vec(format!(in alloc; "{word} o{object} {number}")?.into_bytes()))
}
