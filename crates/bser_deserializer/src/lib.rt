//! The deserializer: what is left of a message and what is expected, as a state; scalars, strings
//! and opened containers.
#![tactic(auto)]

mod any;
pub mod container;
pub mod cursor;
pub mod deserializer;
mod due;
pub mod field;
pub mod frames;
pub mod front;
pub mod node;
pub mod note;
mod scalar;
mod string;
mod template;
