ghost use Rattle.std.specs.Prelude.{◌≡◌};

use crate::fault::raise;
use hpx_value::items::Lengths;

/// The numbers of the calls that are to fail, from 1, and how many calls there were.
#[derive(Drop)]
pub struct Plan {
    pub numbers: Lengths,
    pub calls: u64,
}

impl Plan {
    ghost use Rattle.hpx_ports.specs.Plans.{fails_next, after_call};

    /// Counts one more call, and says whether it is to fail.
    pub fn next_fails(&mut self) -> bool
        ensures planned { result ≡ fails_next self.old }
        ensures counted { self.new ≡ after_call self.old }
    {
        self.calls = raise(self.calls);
        self.numbers.as_slice().contains(&self.calls)
    }
}
