ghost use Rattle.std.specs.Prelude.{◌≡◌, ◌<◌};
ghost use Rattle.hpx_ports.specs.Orders.{next_number};

/// In which order a fabric in memory delivers the frames in flight.
#[derive(Clone, Copy, Debug, PartialEq, Eq)]
pub enum Order {
    /// The oldest comes first.
    FirstIn,
    /// The newest comes first.
    LastIn,
    /// Any may come first, by a number that changes at each delivery of a frame.
    Scrambled(u64),
}

const FACTOR: u64 = 6364136223846793005;

const STEP: u64 = 1442695040888963407;

impl Order {
    ghost use Rattle.hpx_ports.specs.Orders.{next_place, next_order};

    /// The place of the frame that is delivered next, among so many in flight, oldest first.
    pub fn place(self, count: usize) -> usize
        requires { 0 < count }
        ensures place { result ≡ next_place self count }
        ensures within { result < count }
    {
        match self {
            Order::FirstIn => 0,
            Order::LastIn => count - 1,
            Order::Scrambled(number) => (next(number) >> 33) as usize % count,
        }
    }

    /// The order after a delivery.
    pub fn after(self) -> Order
        ensures { result ≡ next_order self }
    {
        match self {
            Order::FirstIn => Order::FirstIn,
            Order::LastIn => Order::LastIn,
            Order::Scrambled(number) => Order::Scrambled(next(number)),
        }
    }
}

fn next(number: u64) -> u64
    ensures { result ≡ next_number number }
{
    number.wrapping_mul(FACTOR).wrapping_add(STEP)
}
