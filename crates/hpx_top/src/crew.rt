//! Who runs the bodies of actions.
ghost use Rattle.std.specs.Prelude.{◌<◌, ◌≤◌};

/// So many threads, which pass a gate before each body.
#[derive(Drop)]
pub struct Crew<'a, R, G> {
    pub rt: &'a R,
    pub gate: &'a G,
    pub threads: u32,
    ghost some: { 0 < threads },
    ghost few: { threads ≤ 64 },
}
