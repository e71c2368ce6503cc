//! Tests of reading, of writing and of values, of what no contract says: how often a reader is
//! called and what it keeps, its faults and those of writers and what these leave, refused memory,
//! places and printed texts. First of the byte sources, then of what is read over a window, of the
//! calls that read a message's parts, and of each type that is read or written.
#![tactic(auto)]

#[cfg(test)]
mod tests;
