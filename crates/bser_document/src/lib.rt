//! A document: any message, as one flat list of nodes and the bytes of its strings.
#![tactic(auto)]

mod builder;
mod display;
pub mod document;
pub mod entries;
pub mod item;
pub mod items;
mod message;
pub mod order;
mod plain;
pub mod pointer;
mod put;
mod reading;
mod replay;
pub mod rows;
mod same;
mod sorted;
mod writing;
