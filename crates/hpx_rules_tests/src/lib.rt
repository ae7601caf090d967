//! Any frames at all, fed to localities in the middle of sessions in which objects are made, called and moved: each answer is the one that the
//! rules give, and a refusal leaves everything as it was.
#![tactic(auto)]

#[cfg(test)]
mod facts;
#[cfg(test)]
mod frames;
#[cfg(test)]
mod given;
#[cfg(test)]
mod pair;
#[cfg(test)]
mod rules;
#[cfg(test)]
mod scenes;
#[cfg(test)]
mod strangers;
