//! Tests of what is read of one message: from a slice, and from a reader that gives one byte a call.
mod memory;
mod messages;
mod steps;
