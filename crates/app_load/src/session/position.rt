//! How far a made session has come.
ghost use Rattle.std.specs.Prelude.{◌∷◌, ◌≡◌, ◌≤◌, ◌<◌, IfOk, OnErr};
ghost use Rattle.app_load.specs.Load.{session_lines};
ghost use Rattle.app_load.specs.Session.{IsAsked, IsNext, IsPosition, lines_left, query_line, standing_behind};

use app_compute::load::{line_of, line_with, next_number};
use hpx_value::items::{Items, Text};
use hpx_value::memory::OutOfMemory;
use std::alloc::Global;

/// How many objects there are.
const OBJECTS: u32 = 8;

/// Which of the eight names stand for an object.
#[derive(Drop)]
pub struct Standing {
    pub names: [bool; 8],
}

/// How far a made session has come.
#[derive(Drop)]
pub struct Position {
    pub localities: u32,
    /// How many objects were made.
    pub objects: u32,
    /// The number of the last line.
    pub number: u32,
    /// How many lines are left that follow from it.
    pub left: u32,
    /// How many names were asked about.
    pub asked: u32,
    /// Which names stand once the objects are made, after the lines handed out.
    pub standing: Standing,
}

impl Standing {
    /// The first name that stands, from this one on.
    fn first_from(&self, object: u32) -> Option<u32>
        requires { object ≤ 8 }
        ensures { IsAsked result object self.now.names }
    {
        for next in object..OBJECTS {
            if self.names[next as usize] {
                return Some(next);
            }
        }
        None
    }

    /// Follows the line of a number: `new` makes an object where its name has none, `drop` leaves it none.
    fn follow(&mut self, number: u32)
        ensures { self.new.names ≡ standing_behind number self.old.names }
    {
        let object = (number % OBJECTS) as usize;
        match number / 8 % 8 {
            0 => self.names[object] = true,
            7 => self.names[object] = false,
            _ => {}
        }
    }
}

impl Position {
    /// Before the first of the lines, of which so many follow from a number.
    pub fn new(start: u32, count: u32, n: u32) -> Position
        requires some { 1 ≤ n }
        requires few { n ≤ 64 }
        ensures lines { lines_left result ≡ session_lines start count n }
        ensures position { IsPosition result }
    {
        Position {
            localities: n,
            objects: 0,
            number: start,
            left: count,
            asked: 0,
            standing: Standing { names: [true; 8] },
        }
    }

    /// The next line. Where there is no memory for it, it is still the next.
    pub fn next(&mut self, alloc: Global) -> Result<Option<Text>, OutOfMemory>
        requires { IsPosition self.old }
        ensures next { IfOk result (λ line. IsNext line (lines_left self.old) (lines_left self.new)) }
        ensures err { OnErr result (self.new ≡ self.old) }
        ensures position { IsPosition self.new }
    {
        if self.objects < OBJECTS {
            return Ok(Some(self.next_object(alloc)?));
        }
        if self.left > 0 {
            return Ok(Some(self.next_made(alloc)?));
        }
        self.next_query(alloc)
    }

    /// The line that makes the next object.
    fn next_object(&mut self, alloc: Global) -> Result<Text, OutOfMemory>
        requires position { IsPosition self.old }
        requires some { self.old.objects < 8 }
        ensures line { IfOk result (λ line. lines_left self.old ≡ line ∷ lines_left self.new) }
        ensures err { OnErr result (self.new ≡ self.old) }
        ensures position { IsPosition self.new }
    {
        let object = self.objects;
        let line = line_with(alloc, "new", object, object % self.localities)?;
        self.objects += 1;
        Ok(line)
    }

    /// The next line that follows from a number.
    fn next_made(&mut self, alloc: Global) -> Result<Text, OutOfMemory>
        requires position { IsPosition self.old }
        requires made { self.old.objects ≡ 8 }
        requires some { 1 ≤ self.old.left }
        ensures line { IfOk result (λ line. lines_left self.old ≡ line ∷ lines_left self.new) }
        ensures err { OnErr result (self.new ≡ self.old) }
        ensures position { IsPosition self.new }
    {
        let number = next_number(self.number);
        let line = line_of(alloc, self.localities, number / 65536)?;
        self.standing.follow(number / 65536);
        self.number = number;
        self.left -= 1;
        Ok(line)
    }

    /// The next query, once all other lines were handed out.
    fn next_query(&mut self, alloc: Global) -> Result<Option<Text>, OutOfMemory>
        requires position { IsPosition self.old }
        requires made { self.old.objects ≡ 8 }
        requires none { self.old.left ≡ 0 }
        ensures next { IfOk result (λ line. IsNext line (lines_left self.old) (lines_left self.new)) }
        ensures err { OnErr result (self.new ≡ self.old) }
        ensures position { IsPosition self.new }
    {
        match self.standing.first_from(self.asked) {
            Some(object) => {
                let line = query_line(alloc, object)?;
                self.asked = object + 1;
                Ok(Some(line))
            }
            None => Ok(None),
        }
    }
}

/// The query of an object.
fn query_line(alloc: Global, object: u32) -> Result<Text, OutOfMemory>
    ensures { IfOk result (λ line. line ≡ query_line object) }
{
    Ok(Items::from_vec(format!(in alloc; "query o{object}")?.into_bytes()))
}
