//! The program `bser_index` over any streams: its words, and what each of its commands does.
#![tactic(auto)]

mod action;
mod changes;
mod command;
mod filter;
mod printing;
pub mod program;
mod pruning;
mod questions;
mod verifying;
mod waiting;
mod wish;
