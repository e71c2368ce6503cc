//! The words in which errors of reading are described.
use super::checks::check_text;
use bser_events::builder::{Builder, Stop};
use bser_events::event::{Event, Place};
use bser_messages::described::from_slice_within;
use bser_messages::limits::Limits;
use bser_messages::telling::from_slice;
use bser_types::impls::Ignored;

/// An object of one entry, whose key has the tag 0x14.
const STRAY_KEY: [u8; 12] = [0, 2, 0, 0, 0, 0, 3, 4, 1, 3, 1, 0x14];

/// A template of no rows.
const TEMPLATE: [u8; 18] = [0, 2, 0, 0, 0, 0, 3, 10, 11, 0, 3, 1, 2, 3, 1, b'a', 3, 0];

/// The number 5.
const FIVE: [u8; 10] = [0, 2, 0, 0, 0, 0, 3, 2, 3, 5];

/// A builder that has no memory.
#[derive(Drop)]
struct Full;

impl Builder for Full {
    ghost use Rattle.std.specs.Prelude.{true, false};

    ghost takes = { λ _ _ _ _. Unit {0} };

    ghost stopped = { λ _ _ _ _ _. Unit {0} };

    ghost stops = { true };

    ghost asks = { false };

    ghost bytes = { false };

    fn wants_bytes(&self) -> bool {
        false
    }

    fn take(&mut self, _event: Event<'_>, _place: Place) -> Result<(), Stop> {
        Err(Stop::Memory)
    }

    fn bytes_passed(&mut self, _len: usize, _place: Place) -> Result<(), Stop> {
        Err(Stop::Memory)
    }
}

#[test]
fn an_error_is_described_in_words(rt: HostRuntime) {
    let alloc = rt.alloc();
    let stray = from_slice_within::<Ignored>(alloc, 128, &STRAY_KEY).err();
    let words = "unknown byte 0x14 where an object's key is wanted, at byte 11";
    check_text(&rt, alloc, stray.expect(&rt, "an error"), words);
    let deep = from_slice_within::<Ignored>(alloc, 0, &TEMPLATE).err();
    let words = "recursion limit, template nests too deep, at byte 8";
    check_text(&rt, alloc, deep.expect(&rt, "an error"), words);
}

#[test]
fn what_is_not_told_is_described_in_words(rt: HostRuntime) {
    let alloc = rt.alloc();
    let short = Limits {
        levels: 128,
        bytes: 1,
    };
    let long = from_slice(alloc, short, &FIVE, &mut Ignored).err();
    let words = "2 bytes announced, and at most 1 are taken, at byte 8";
    check_text(&rt, alloc, long.expect(&rt, "an error"), words);
    let mut full = Full;
    let untold = from_slice(alloc, Limits::new(), &FIVE, &mut full).err();
    check_text(
        &rt,
        alloc,
        untold.expect(&rt, "an error"),
        "out of memory, at byte 8",
    );
}
