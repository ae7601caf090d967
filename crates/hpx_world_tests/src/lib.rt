//! Turns, steps and drains of worlds of one, two and three localities, in tables: what each answers, what it leaves, and why it is
//! refused.
#![tactic(auto)]

#[cfg(test)]
mod limits;
#[cfg(test)]
mod orders;
#[cfg(test)]
mod refusals;
#[cfg(test)]
mod rows;
#[cfg(test)]
mod story;
#[cfg(test)]
mod trials;
#[cfg(test)]
mod turns;
