//! Members over a link in memory, in tables: what comes, the status then, and what is sent, written and shown.
#![tactic(auto)]

#[cfg(test)]
mod bodies;
#[cfg(test)]
mod consoles;
#[cfg(test)]
mod ran;
#[cfg(test)]
mod script;
#[cfg(test)]
mod sessions;
#[cfg(test)]
mod workers;
