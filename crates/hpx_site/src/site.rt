//! A world with its fabric.
ghost use Rattle.std.specs.Prelude.{◌≡◌, length};

use hpx_ports::fabric::Fabric;
use hpx_value::acts::Acts;
use hpx_world::turns::WorldFault;
use hpx_world::world::World;

/// A world, its fabric, and why it stands still, if it does.
#[derive(Drop)]
pub struct Site<A: Acts + Copy, F: Fabric> {
    pub world: World<A>,
    pub fabric: F,
    pub stop: Option<WorldFault<A>>,
}

/// A world and its fabric, lent to workers.
#[derive(Drop)]
pub struct Lent<'w, 'f, A: Acts + Copy, F: Fabric> {
    pub world: &'w mut World<A>,
    pub fabric: &'f mut F,
}

impl<'w, 'f, A: Acts + Copy, F: Fabric> Lent<'w, 'f, A, F> {
    /// How many localities there are.
    pub fn localities(&self) -> u32
        ensures { result ≡ length self.now.world.now.nodes }
    {
        self.world.acts().localities()
    }

    /// Whether no job is out.
    pub fn none_runs(&self) -> bool {
        self.world.none_runs()
    }
}
