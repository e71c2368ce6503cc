//! Types that are read, and the accesses to what a container holds.
#![tactic(auto)]

pub mod access;
mod collects;
pub mod container;
pub mod deserialize;
pub mod impls;
pub mod map;
pub mod seq;
