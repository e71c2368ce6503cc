//! Reading one value by one loop, reported to a builder event by event.
#![tactic(auto)]

mod around;
pub mod builder;
pub mod event;
pub mod frame;
pub mod fronts;
mod gathered;
mod heads;
mod outermost;
mod parts;
mod pieces;
pub mod reading;
mod refusal;
mod strings;
pub mod watched;
