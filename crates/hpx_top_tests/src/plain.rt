//! A plain space: what a line does there, and what it prints.
use app_console::say::help;
use app_console::table::Console;
use hpx_value::memory::OutOfMemory;
use std::alloc::Global;

/// What a command wants behind its word.
#[derive(Clone, Copy)]
pub enum Arg {
    NewName,
    BoundName,
    AnyName,
    Place,
    Number,
    Count,
    Key,
    Counter,
}

#[derive(Clone, Copy, PartialEq, Eq)]
pub enum Kind {
    Number,
    Promise,
    Channel,
    Latch,
    Barrier,
}

/// What a line does whose arguments are right.
#[derive(Clone, Copy, PartialEq, Eq)]
pub enum Does {
    Make(Kind),
    Add,
    Query,
    Put,
    Get,
    Close,
    Down,
    Wait,
    Arrive,
    Move,
    Where,
    Drop,
    Share,
    Unshare,
    Register,
    Lookup,
    Unregister,
    Names,
    Localities,
    Help,
    Born,
    Audit,
    Nothing,
}

/// What stands behind the word of a line: of four names, the three localities and one that is not, four numbers and three keys.
#[derive(Clone, Copy)]
pub struct Made {
    pub name: u64,
    pub place: u32,
    pub number: i64,
    pub count: i64,
    pub key: u64,
}

/// What is printed: a number, an error or another word.
#[derive(Clone, Copy)]
enum Says {
    Number(i64),
    Error(&'static str),
    Released,
}

/// So many times the same.
type Said = (u64, Says);

const SILENT: Said = (0, Says::Released);

fn error(word: &'static str) -> Said {
    (1, Says::Error(word))
}

/// An object of the plain space: where it was made and where it stands, its number or what is left of it, what it keeps, whether it is
/// closed, and how many wait there.
#[derive(Drop)]
struct Thing {
    kind: Kind,
    born: u32,
    place: u32,
    number: i64,
    kept: Vec<i64>,
    closed: bool,
    waiting: u64,
}

impl Thing {
    fn waits(&mut self) -> Said {
        self.waiting = self.waiting.saturating_add(1);
        SILENT
    }

    /// All that wait are told.
    fn frees(&mut self, says: Says) -> Said {
        let waiting = self.waiting;
        self.waiting = 0;
        (waiting, says)
    }

    /// The value that a promise has, or the oldest one of a channel, which goes.
    fn oldest(&mut self) -> Option<i64> {
        if self.kept.is_empty() {
            return None;
        }
        if self.kind == Kind::Promise {
            return Some(self.kept[0]);
        }
        Some(self.kept.remove(0))
    }

    /// A promise or a channel is asked.
    fn with_values(&mut self, does: Does, number: i64) -> Result<Said, OutOfMemory> {
        let is_channel = self.kind == Kind::Channel;
        match does {
            Does::Get => match self.oldest() {
                Some(oldest) => Ok((1, Says::Number(oldest))),
                None if self.closed => Ok(error("closed")),
                None if !is_channel && self.waiting == 7 => Ok(error("full")),
                None => Ok(self.waits()),
            },
            Does::Put if self.closed => Ok(error("closed")),
            Does::Put if is_channel && self.waiting > 0 => {
                self.waiting = self.waiting.saturating_sub(1);
                Ok((1, Says::Number(number)))
            }
            Does::Put if !is_channel && !self.kept.is_empty() => Ok(error("already set")),
            Does::Put => {
                self.kept.push(number)?;
                Ok(self.frees(Says::Number(number)))
            }
            Does::Close if self.closed => Ok(error("closed")),
            Does::Close if is_channel => {
                self.closed = true;
                Ok(self.frees(Says::Error("closed")))
            }
            _ => Ok(error("wrong kind")),
        }
    }

    /// A number, a latch or a barrier is asked.
    fn with_number(&mut self, does: Does, number: i64) -> Said {
        match (self.kind, does) {
            (Kind::Number, Does::Query) => (1, Says::Number(self.number)),
            (Kind::Number, Does::Add) => match self.number.checked_add(number) {
                Some(sum) => {
                    self.number = sum;
                    SILENT
                }
                None => error("overflow"),
            },
            (Kind::Latch, Does::Down) if self.number == 0 => error("spent"),
            (Kind::Latch, Does::Down) => {
                self.number = self.number.saturating_sub(1);
                if self.number == 0 {
                    self.frees(Says::Released)
                } else {
                    SILENT
                }
            }
            (Kind::Latch, Does::Wait) if self.number == 0 => (1, Says::Released),
            (Kind::Latch, Does::Wait) => self.waits(),
            (Kind::Barrier, Does::Arrive) => {
                self.waiting = self.waiting.saturating_add(1);
                if i64::try_from(self.waiting) == Ok(self.number) {
                    self.frees(Says::Released)
                } else {
                    SILENT
                }
            }
            _ => error("wrong kind"),
        }
    }

    /// It is asked, or moves.
    fn does(&mut self, does: Does, made: Made) -> Result<Said, OutOfMemory> {
        match does {
            Does::Where => Ok((1, Says::Number(i64::from(self.place)))),
            Does::Move if self.kind != Kind::Number => Ok(error("not movable")),
            Does::Move => {
                self.place = made.place;
                Ok(SILENT)
            }
            _ => match self.kind {
                Kind::Promise | Kind::Channel => self.with_values(does, made.number),
                _ => Ok(self.with_number(does, made.number)),
            },
        }
    }
}

/// What stands for an object: a name, a key, or a name at a locality's shelf.
#[derive(Clone, Copy, PartialEq, Eq)]
enum Under {
    Name(u64),
    Key(u64),
    Shelf(u64, u32),
}

/// A plain space, and its text.
#[derive(Drop)]
pub struct Plain {
    things: Vec<Thing>,
    bound: Vec<(Under, usize)>,
    pub text: Vec<u8>,
}

impl Plain {
    /// Before the first line.
    pub fn new(alloc: Global) -> Result<Plain, OutOfMemory> {
        let mut text = Vec::from_slice(alloc, help(Console::Space))?;
        text.extend_from_slice(b"> ")?;
        Ok(Plain {
            things: Vec::new(alloc),
            bound: Vec::new(alloc),
            text,
        })
    }

    /// What stands under it.
    fn at(&self, under: Under) -> Option<usize> {
        for (other, thing) in &self.bound {
            if *other == under {
                return Some(*thing);
            }
        }
        None
    }

    /// One stands for what another stands for.
    fn binds(&mut self, under: Under, other: Under) -> Result<Said, OutOfMemory> {
        if self.at(under).is_some() {
            return Ok(error("taken"));
        }
        match self.at(other) {
            Some(thing) => {
                self.bound.push((under, thing))?;
                Ok(SILENT)
            }
            None => Ok(error("no such name")),
        }
    }

    fn unbinds(&mut self, under: Under) -> Said {
        match self.bound.iter().position(|(other, _)| *other == under) {
            Some(at) if at < self.bound.len() => {
                self.bound.remove(at);
                SILENT
            }
            _ => error("no such name"),
        }
    }

    fn makes(&mut self, alloc: Global, kind: Kind, made: Made) -> Result<Said, OutOfMemory> {
        let number = if kind == Kind::Number { 0 } else { made.count };
        self.bound
            .push((Under::Name(made.name), self.things.len()))?;
        self.things.push(Thing {
            kind,
            born: made.place,
            place: made.place,
            number,
            kept: Vec::new(alloc),
            closed: false,
            waiting: 0,
        })?;
        Ok(SILENT)
    }

    /// Whether no object is left, and none has gone at which somebody waits.
    pub fn is_bare(&self) -> bool {
        self.bound.is_empty() && self.things.iter().all(|thing| thing.waiting == 0)
    }

    /// The keys in order.
    fn keys(&self, alloc: Global) -> Result<String, OutOfMemory> {
        let mut text = String::new(alloc);
        for key in 0..3u64 {
            if self.at(Under::Key(key)).is_some() {
                let between = if text.is_empty() { "" } else { " " };
                text.push_str(format!(in alloc; "{between}k{key}")?.as_str())?;
            }
        }
        Ok(text)
    }

    /// Why a line is refused: by the first of its arguments that is wrong.
    fn refusal(&self, args: &[Arg], made: Made) -> Option<&'static str> {
        let is_bound = self.at(Under::Name(made.name)).is_some();
        for arg in args {
            match arg {
                Arg::NewName if is_bound => return Some("name in use"),
                Arg::BoundName if !is_bound => return Some("unknown name"),
                Arg::Place if made.place == 3 => return Some("no such locality"),
                Arg::Count if made.count == 0 => return Some("bad number"),
                _ => (),
            }
        }
        None
    }

    /// What a line does, and what is said for it.
    fn does(&mut self, alloc: Global, does: Does, made: Made) -> Result<Said, OutOfMemory> {
        let name = Under::Name(made.name);
        let key = Under::Key(made.key);
        let shelf = Under::Shelf(made.name, made.place);
        match does {
            Does::Make(kind) => self.makes(alloc, kind, made),
            Does::Drop => Ok(self.unbinds(name)),
            Does::Share => self.binds(shelf, name),
            Does::Unshare => Ok(self.unbinds(shelf)),
            Does::Register => self.binds(key, name),
            Does::Lookup => self.binds(name, key),
            Does::Unregister => Ok(self.unbinds(key)),
            Does::Localities => Ok((1, Says::Number(3))),
            Does::Born => {
                let born = self.things.iter().filter(|thing| thing.born == made.place);
                let born = i64::try_from(born.count()).unwrap_or(i64::MAX);
                Ok((1, Says::Number(born)))
            }
            _ => match self.at(name) {
                Some(at) if at < self.things.len() => self.things[at].does(does, made),
                _ => Ok(SILENT),
            },
        }
    }

    /// Text is printed.
    fn prints(&mut self, alloc: Global, said: Said) -> Result<(), OutOfMemory> {
        let (times, says) = said;
        for _ in 0..times {
            let line = match says {
                Says::Number(number) => format!(in alloc; "{number}\n")?,
                Says::Error(word) => format!(in alloc; "error: {word}\n")?,
                Says::Released => format!(in alloc; "released\n")?,
            };
            self.text.extend_from_slice(line.as_bytes())?;
        }
        Ok(())
    }

    /// One line: its text, and the prompt for the next.
    pub fn line(
        &mut self,
        alloc: Global,
        args: &[Arg],
        does: Does,
        made: Made,
    ) -> Result<(), OutOfMemory> {
        match (self.refusal(args, made), does) {
            (Some(why), _) => self.prints(alloc, error(why))?,
            (None, Does::Nothing) => (),
            (None, Does::Help) => self.text.extend_from_slice(help(Console::Space))?,
            (None, Does::Audit) => self.text.extend_from_slice(b"no objects\n")?,
            (None, Does::Names) => {
                let keys = self.keys(alloc)?;
                self.text
                    .extend_from_slice(format!(in alloc; "{keys}\n")?.as_bytes())?
            }
            (None, does) => {
                let said = self.does(alloc, does, made)?;
                self.prints(alloc, said)?
            }
        }
        self.text.extend_from_slice(b"> ")?;
        Ok(())
    }
}
