//! How much memory a `Value` may take while it is read, by the parts of its message.
//!
//! The figures are those of `malloc` and of std's collections. Nothing is proved of them.
ghost use Rattle.std.specs.Prelude.{true, false};

use bser_events::builder::{Builder, Stop};
use bser_events::event::{Event, Place};
use bser_messages::limits::Limits;
use bser_messages::telling;
use std::alloc::Global;

/// What a map of a few entries takes: one node.
const MAP: u64 = 872;

/// How many entries a node has at most, and at least where it is not the only one.
const MOST_ENTRIES: u64 = 15;

const LEAST_ENTRIES: u64 = 7;

/// What a node of a larger map takes.
const NODE: u64 = 1000;

/// How many values are read into one list that grows.
const FEW_ITEMS: u64 = 31;

/// What a value takes in a list, while that is read.
const ITEM: u64 = 66;

/// What is read of a container in a few lists takes, beside their items.
const PIECES: u64 = 2000;

/// What an open container takes.
const OPEN: u64 = 224;

/// How deep a message is at most.
const MOST_OPEN: u64 = 128;

/// What the calls take that have no part in this, for each byte of the message and once.
const FOR_EACH: u64 = 4;

const ONCE: u64 = 1024;

/// What a value may take for each byte of its message, and what it may always take.
const MOST_FOR_EACH: u64 = 128;

const MOST_FOR_FEW: u64 = 512_000;

/// What the events up to now say of the memory of a value.
#[derive(Drop)]
pub struct Footprint {
    /// What the values take that were reported.
    bytes: u64,
    /// How many lists were reported that are read in pieces.
    long_lists: u64,
    /// How many containers are open, and how many were at most.
    open: u64,
    most_open: u64,
    /// Whether the keys of a template are being reported, how many they are, and what those take
    /// that were.
    in_keys: bool,
    width: u64,
    keys: u64,
}

impl Footprint {
    /// Nothing was reported.
    fn new() -> Self {
        Footprint {
            bytes: 0,
            long_lists: 0,
            open: 0,
            most_open: 0,
            in_keys: false,
            width: 0,
            keys: 0,
        }
    }

    /// How many bytes a value takes at most while it is read and written, once all of its message
    /// of `len` bytes was reported.
    fn total(&self, len: u64) -> u64 {
        let open = self.most_open.saturating_mul(2).min(MOST_OPEN);
        self.bytes
            .saturating_add(open.saturating_mul(OPEN))
            .saturating_add(self.long_lists.min(self.most_open).saturating_mul(PIECES))
            .saturating_add(len.saturating_mul(FOR_EACH))
            .saturating_add(ONCE)
    }

    /// Counts so many bytes.
    fn add(&mut self, bytes: u64) {
        self.bytes = self.bytes.saturating_add(bytes);
    }

    /// Opens so many containers.
    fn open(&mut self, count: u64) {
        self.open = self.open.saturating_add(count);
        self.most_open = self.most_open.max(self.open);
    }

    /// Counts a list of so many values.
    fn add_list(&mut self, len: u64) {
        if len > FEW_ITEMS {
            self.long_lists = self.long_lists.saturating_add(1);
        }
        if len != 0 {
            self.add(len.saturating_mul(ITEM).saturating_add(72));
        }
    }

    /// Counts a key.
    fn add_key(&mut self, len: usize) {
        let bytes = string_block(len);
        if self.in_keys {
            self.keys = self.keys.saturating_add(bytes);
        } else {
            self.add(bytes);
        }
    }

    /// Counts the objects of so many rows, beside their values, and a map of the keys.
    fn add_rows(&mut self, count: u64) {
        self.in_keys = false;
        let row = map_blocks(self.width).saturating_add(self.keys);
        self.add(row.saturating_mul(count.saturating_add(1)));
        self.add_list(count);
    }

    /// Counts what an event brings.
    fn count(&mut self, event: Event<'_>) {
        match event {
            Event::Bytes(string) => self.add(string_block(string.len())),
            Event::Text(text) => self.add(string_block(text.len())),
            Event::Key(key) => self.add_key(key.len()),
            Event::Array { len } => {
                self.open(1);
                self.add_list(len as u64);
            }
            Event::Object { len } => {
                self.open(1);
                self.add(map_blocks(len as u64));
            }
            Event::Template { len } => {
                self.open(1);
                self.in_keys = true;
                self.width = len as u64;
                self.keys = 0;
                self.add(self.width.saturating_mul(ITEM));
            }
            Event::Rows { len } => self.add_rows(len as u64),
            Event::Close => self.open = self.open.saturating_sub(1),
            _ => {}
        }
    }
}

/// The block of a string of so many bytes.
fn string_block(len: usize) -> u64 {
    if len == 0 {
        return 0;
    }
    (len as u64).saturating_add(23).max(24)
}

/// The nodes of a map with so many entries.
fn map_blocks(len: u64) -> u64 {
    if len == 0 {
        return 0;
    }
    if len <= MOST_ENTRIES {
        return MAP;
    }
    (len / LEAST_ENTRIES).saturating_add(1).saturating_mul(NODE)
}

impl Builder for Footprint {
    ghost takes = { λ _ _ _ _. Unit {0} };

    ghost stopped = { λ _ _ _ _ _. ⊥ };

    ghost stops = { false };

    ghost asks = { false };

    ghost bytes = { true };

    fn wants_bytes(&self) -> bool {
        true
    }

    fn take(&mut self, event: Event<'_>, _place: Place) -> Result<(), Stop> {
        self.count(event);
        Ok(())
    }

    fn bytes_passed(&mut self, _len: usize, _place: Place) -> Result<(), Stop> {
        Ok(())
    }
}

/// Returns whether the `Value` of the message at the start of `bytes` takes at most 128 bytes for
/// each byte of it, or at most 512,000, while it is read and written. A message that cannot be read
/// has none.
pub fn is_affordable(alloc: Global, bytes: &[u8]) -> bool {
    let mut told = Footprint::new();
    match telling::from_slice(alloc, Limits::new(), bytes, &mut told) {
        Ok(header) => {
            let len = header.message_length() as u64;
            told.total(len) <= len.saturating_mul(MOST_FOR_EACH).max(MOST_FOR_FEW)
        }
        Err(_untold) => false,
    }
}
