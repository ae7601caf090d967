//! How a member ended.
ghost use Rattle.std.specs.Prelude.{◌≡◌, [], None, Some};
ghost use Rattle.hpx_member.specs.Leads.{halted_fault, halted_status};
ghost use Rattle.hpx_member.specs.Stops.{end_fault, end_status};

use crate::seat::Seat;
use crate::stop::{Halt, MemberFault, Stop};
use hpx_journal::journal::Journal;
use hpx_node::node::Node;
use hpx_ports::link::Link;
use hpx_value::acts::Acts;
use std::alloc::Global;

/// How a member ended: its status, its locality as it stood then, its journal, its link, and what came that it did not accept.
#[derive(Drop)]
pub struct MemberEnd<A: Acts + Copy, L: Link + Drop> {
    pub status: u8,
    /// None only where it could not be booted.
    pub node: Option<Node<A>>,
    pub journal: Journal,
    pub link: L,
    pub fault: Option<MemberFault>,
}

/// The end of a member that could not be booted.
pub(crate) fn unbooted<A: Acts + Copy, L: Link + Drop>(alloc: Global, link: L) -> MemberEnd<A, L>
    ensures status { result.status ≡ 6 }
    ensures node { result.node ≡ None }
    ensures journal { result.journal.entries ≡ [] }
    ensures link { result.link ≡ link }
    ensures fault { result.fault ≡ None }
{
    MemberEnd {
        status: 6,
        node: None,
        journal: Journal::new(alloc),
        link,
        fault: None,
    }
}

/// The end of a member with this status and fault.
fn left<A: Acts + Copy, L: Link + Drop>(
    status: u8,
    fault: Option<MemberFault>,
    seat: Seat<A, L>,
) -> MemberEnd<A, L>
    ensures status { result.status ≡ status }
    ensures node { result.node ≡ Some seat.node }
    ensures journal { result.journal ≡ seat.book }
    ensures link { result.link ≡ seat.link }
    ensures fault { result.fault ≡ fault }
{
    let Seat {
        acts: _,
        node,
        book,
        link,
    } = seat;
    MemberEnd {
        status,
        node: Some(node),
        journal: book,
        link,
        fault,
    }
}

/// The end of a worker that was booted.
pub(crate) fn ended<A: Acts + Copy, L: Link + Drop>(
    ran: Result<(), Stop>,
    seat: Seat<A, L>,
) -> MemberEnd<A, L>
    ensures status { result.status ≡ end_status ran }
    ensures node { result.node ≡ Some seat.node }
    ensures journal { result.journal ≡ seat.book }
    ensures link { result.link ≡ seat.link }
    ensures fault { result.fault ≡ end_fault ran }
{
    match ran {
        Ok(()) => left(0, None, seat),
        Err(stop) => left(stop.status(), stop.fault(), seat),
    }
}

/// The end of a console that was booted.
pub(crate) fn halted<A: Acts + Copy, L: Link + Drop>(
    ran: Result<(), Halt>,
    seat: Seat<A, L>,
) -> MemberEnd<A, L>
    ensures status { result.status ≡ halted_status ran }
    ensures node { result.node ≡ Some seat.node }
    ensures journal { result.journal ≡ seat.book }
    ensures link { result.link ≡ seat.link }
    ensures fault { result.fault ≡ halted_fault ran }
{
    match ran {
        Ok(()) => left(0, None, seat),
        Err(halt) => left(halt.status(), halt.fault(), seat),
    }
}
