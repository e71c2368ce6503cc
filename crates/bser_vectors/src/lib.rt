//! What tests of BSER need: worked messages, a notation for answers, readers and writers that follow
//! a plan, structs and an enum that are read, the ways of reading a message, a builder that looks at
//! places, what the lines of tables say, counts of those that are wrong, and sessions of programs.
#![tactic(auto)]

pub mod answers;
pub mod columns;
pub mod commands;
pub mod counts;
pub mod devices;
pub mod enums;
pub mod messages;
pub mod notation;
pub mod refused;
pub mod session;
pub mod shown;
pub mod structs;
pub mod sums;
pub mod ways;
pub mod witness;
