//! Processes of this program, each a locality of several.
use std::alloc::Global;
use std::fmt::{self, Display, Formatter};
use std::io::{self, Read, Write};
use std::os::fd::OwnedFd;
use std::process::{Child, Command, Stdio};
use std::thread;
use std::time::{Duration, Instant};

/// The pause before processes are looked at again.
const PAUSE: u64 = 10;

/// Where the localities are that are started: the path of the program, how many there are, and the port of the first.
#[derive(Drop)]
pub struct Site<'a> {
    pub program: &'a str,
    pub localities: u16,
    pub port: u16,
}

/// A locality, as a reader knows it.
#[derive(Clone, Copy, PartialEq, Eq)]
pub struct Seat(pub u16);

impl Display for Seat {
    fn fmt<W: fmt::Write>(&self, f: &mut Formatter<W>) -> fmt::Result {
        match self.0 {
            0 => f.write_str("console"),
            node => write!(f, "worker {node}"),
        }
    }
}

/// A locality that was started.
#[derive(Drop)]
struct Process {
    seat: Seat,
    child: Child,
}

/// Localities that were started, each as a process. Those that still run where the group is dropped are killed.
pub struct Group {
    processes: Vec<Process>,
}

impl Drop for Group {
    fn drop(self) {
        let Self { processes } = self;
        for process in processes {
            let mut child = process.child;
            let _ = child.kill();
            let _ = child.wait();
        }
    }
}

/// What starts a locality of a session of the accumulator.
fn command(alloc: Global, site: &Site, seat: Seat) -> io::Result<Command> {
    let Site {
        program,
        localities,
        port,
    } = site;
    let node = seat.0;
    let side = if node == 0 {
        "--hpx:console"
    } else {
        "--hpx:worker"
    };
    let mut command = Command::new(alloc, *program)?;
    command.arg("accumulator")?;
    command.arg(format!(in alloc; "--hpx:localities={localities}")?)?;
    command.arg(format!(in alloc; "--hpx:agas=127.0.0.1:{port}")?)?;
    command.arg(format!(in alloc; "--hpx:node={node}")?)?;
    command.arg(side)?;
    command.stdin(Stdio::null());
    command.stdout(Stdio::null());
    command.stderr(Stdio::piped());
    Ok(command)
}

impl Group {
    /// No process was started.
    pub fn new(alloc: Global) -> Group {
        Group {
            processes: Vec::new(alloc),
        }
    }

    /// Starts a process. Room for it is made before, so that what was started is kept.
    fn start(&mut self, rt: &HostRuntime, seat: Seat, command: &mut Command) -> io::Result<()> {
        self.processes.reserve(1)?;
        let child = command.spawn(rt)?;
        self.processes.push_reserved(Process { seat, child });
        Ok(())
    }

    /// Starts a locality that reads nothing, and whose output is lost.
    pub fn start_deaf(&mut self, rt: &HostRuntime, site: &Site, seat: Seat) -> io::Result<()> {
        self.start(rt, seat, &mut command(rt.alloc(), site, seat)?)
    }

    /// Starts the console, which reads what it is fed, and writes to `output`.
    pub fn start_console(
        &mut self,
        rt: &HostRuntime,
        site: &Site,
        output: OwnedFd,
    ) -> io::Result<()> {
        let mut command = command(rt.alloc(), site, Seat(0))?;
        command.stdin(Stdio::piped());
        command.stdout(output);
        self.start(rt, Seat(0), &mut command)
    }

    /// Hands a line to each process that reads. One that has ended reads it no more.
    pub fn feed(&mut self, lines: &[u8]) {
        for process in self.processes.as_mut_slice() {
            if let Some(input) = &mut process.child.stdin {
                let _ = input.write_all(lines);
            }
        }
    }

    /// Kills a locality, and waits until it is gone.
    pub fn kill(&mut self, seat: Seat) -> io::Result<()> {
        for process in self.processes.as_mut_slice() {
            if process.seat == seat {
                process.child.kill()?;
                process.child.wait()?;
            }
        }
        Ok(())
    }

    /// Whether all have ended.
    fn has_ended(&mut self) -> io::Result<bool> {
        for process in self.processes.as_mut_slice() {
            if process.child.try_wait()?.is_none() {
                return Ok(false);
            }
        }
        Ok(true)
    }

    /// Goes on feeding lines until all have ended, and answers whether that was so in time.
    pub fn ends_within(
        &mut self,
        rt: &HostRuntime,
        time: Duration,
        line: &[u8],
    ) -> io::Result<bool> {
        let start = Instant::now(rt)?;
        for _ in 0..u64::MAX {
            let has_ended = self.has_ended()?;
            if start.elapsed(rt)? > time {
                return Ok(false);
            }
            if has_ended {
                return Ok(true);
            }
            self.feed(line);
            thread::sleep(rt, Duration::from_millis(PAUSE));
        }
        Ok(false)
    }

    /// Says how each has ended. One that still runs is killed.
    pub fn tell(&mut self, rt: &HostRuntime) -> io::Result<()> {
        for process in self.processes.as_mut_slice() {
            process.tell(rt)?;
        }
        Ok(())
    }
}

impl Process {
    /// Says how it has ended, and what it said on its output for errors. If it still runs, it is killed.
    fn tell(&mut self, rt: &HostRuntime) -> io::Result<()> {
        if self.child.try_wait()?.is_none() {
            self.child.kill()?;
        }
        let status = self.child.wait()?;
        let mut said = String::new(rt.alloc());
        if let Some(errors) = &mut self.child.stderr {
            errors.read_to_string(&mut said)?;
        }
        let seat = self.seat;
        print!(rt; "{seat}: {status}\n{said}")
    }
}
