//! Tests by the public calls of the crates.
mod bunser;
mod bytestrings;
mod checks;
mod described;
mod deserializer;
mod memory;
mod printed;
mod readers;
mod texts;
mod types;
mod values;
mod writing;
