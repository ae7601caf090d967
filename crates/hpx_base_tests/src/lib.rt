//! Tests of what stands below the acts and the journal: ids, values and profiles, the table of held ids, the cache of places, records and
//! the arithmetic of credit, ports in memory and over TCP, spawners, the launcher, hands of the deques, and the four counters.
#![tactic(auto)]

#[cfg(test)]
mod bodies;
#[cfg(test)]
mod cache;
#[cfg(test)]
mod ended;
#[cfg(test)]
mod failure;
#[cfg(test)]
mod ids;
#[cfg(test)]
mod launches;
#[cfg(test)]
mod members;
#[cfg(test)]
mod mentions;
#[cfg(test)]
mod pool;
#[cfg(test)]
mod ports;
#[cfg(test)]
mod records;
#[cfg(test)]
mod spawners;
#[cfg(test)]
mod stock;
#[cfg(test)]
mod values;
