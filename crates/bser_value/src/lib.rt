//! `Value`, which is any value: how it is made of what is read, looked into, printed and written, and
//! written in the compact form, which no message that reads as it is shorter than.
#![tactic(auto)]

pub mod builder;
mod building;
pub mod compact;
mod direct;
mod gathered;
mod places;
mod reading;
mod table;
mod template;
pub mod value;
