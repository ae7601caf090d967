//! Sessions of both consoles over worlds, and runs of the top call over ports in memory: each prints what one plain space says, also
//! where its objects move.
#![tactic(auto)]

#[cfg(test)]
mod credits;
#[cfg(test)]
mod ended;
#[cfg(test)]
mod generated;
#[cfg(test)]
mod held;
#[cfg(test)]
mod limits;
#[cfg(test)]
mod lines;
#[cfg(test)]
mod made;
#[cfg(test)]
mod moves;
#[cfg(test)]
mod plain;
#[cfg(test)]
mod pool;
#[cfg(test)]
mod refused;
#[cfg(test)]
mod running;
#[cfg(test)]
mod runs;
#[cfg(test)]
mod sessions;
#[cfg(test)]
mod spaces;
