//! The outside as traits: sources and sinks of bytes, fabrics that carry frames, links between members, and spawners of programs.
#![tactic(auto)]

pub mod adapters;
pub mod child_spawner;
pub mod fabric;
pub mod fault;
mod flight;
pub mod gate;
mod heard;
pub mod link;
pub mod loose_fabric;
pub mod memory_fabric;
pub mod memory_link;
pub mod memory_opener;
pub mod memory_sink;
pub mod memory_source;
pub mod memory_spawner;
pub mod order;
pub mod plan;
pub mod sink;
pub mod source;
pub mod spawner;
mod unread;
pub mod words;
