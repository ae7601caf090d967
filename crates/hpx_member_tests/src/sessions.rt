//! A console and a worker, each run anew over all that the other has sent so far, until nothing more is sent.
use crate::bodies::{handed, said};
use crate::consoles::LINES;
use crate::ran::{NONE, Ran, Session, console_ran, worker_ran};
use std::alloc::{AllocError, Global};
use std::collections::VecDeque;
use std::sync::Wait;
use std::test::Fail;

/// How often a console is run at most.
const MOST: usize = 100;

// What both come to.
fn session<R: Wait>(rt: &R, alloc: Global, how: &Session) -> Result<(Ran, Ran), AllocError> {
    let mut first = console_ran(rt, alloc, how, VecDeque::new(alloc), &NONE)?;
    let mut second = worker_ran(rt, alloc, handed(alloc, 0, first.sent.as_slice())?, &NONE)?;
    for _ in 0..MOST {
        let next = console_ran(
            rt,
            alloc,
            how,
            handed(alloc, 1, second.sent.as_slice())?,
            &NONE,
        )?;
        let is_last = next.sent.len() == first.sent.len();
        first = next;
        if is_last {
            break;
        }
        second = worker_ran(rt, alloc, handed(alloc, 0, first.sent.as_slice())?, &NONE)?;
    }
    Ok((first, second))
}

// Whether a round ends before each line but the first; and what the console sends, and the worker. One more is begun once the lines are over.
const ROWS: [(bool, &str, &str); 2] = [
    (
        false,
        "1 01\n1 01\n1 01\n1 f000000000\n1 f000000001\n1 f2\n",
        "0 01\n0 01\n0 01\n0 f10000000000000000000000030000000000000003\n0 f10000000100000000000000030000000000000003\n",
    ),
    (
        true,
        "1 01\n1 f000000000\n1 f000000001\n1 01\n1 f000000000\n1 f000000001\n1 01\n1 f000000000\n1 f000000001\n\
1 f000000000\n1 f000000001\n1 f2\n",
        "0 01\n0 f10000000000000000000000010000000000000001\n0 f10000000100000000000000010000000000000001\n\
0 01\n0 f10000000000000000000000020000000000000002\n0 f10000000100000000000000020000000000000002\n\
0 01\n0 f10000000000000000000000030000000000000003\n0 f10000000100000000000000030000000000000003\n\
0 f10000000000000000000000030000000000000003\n0 f10000000100000000000000030000000000000003\n",
    ),
];

#[test]
fn a_console_and_a_worker_end(rt: HostRuntime) -> Result<(), Fail> {
    for (settles, asked, answered) in &ROWS {
        let how = Session {
            localities: 2,
            settles: *settles,
            lines: LINES,
        };
        let (first, second) = session(&rt, rt.alloc(), &how)?;
        assert_eq!(rt; (first.status, second.status), (0, 0));
        assert_eq!(rt; (first.entries, second.entries), (29, 16));
        assert!(rt; first.text.as_slice() == b"5\n".as_slice());
        let sent = said(rt.alloc(), first.sent.as_slice())?;
        assert!(rt; sent.as_slice() == asked.as_bytes());
        let sent = said(rt.alloc(), second.sent.as_slice())?;
        assert!(rt; sent.as_slice() == answered.as_bytes());
    }
    Ok(())
}
