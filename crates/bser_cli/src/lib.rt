//! The program `bser` over any streams: its words, and what each of its commands does.
#![tactic(auto)]

mod canon;
mod command;
mod kept;
mod lines;
mod order;
mod pointer;
pub mod program;
