//! Messages of a Watchman server, and such as break off or announce too much: from a slice, and
//! from a reader that gives one byte a call.
mod lengths;
mod readers;
mod slices;
mod telling;

use bser_messages::limits::Limits;

/// A server's answer to `version`: an object of 4.9.0 under `version`, of 29 bytes.
const VERSION: &[u8] =
    b"\x00\x02\x00\x00\x00\x00\x03\x15\x01\x03\x01\x02\x03\x07version\x0d\x03\x054.9.0";

/// The number 300 in four bytes, and that in two: messages of 13 and of 11 bytes.
const NUMBERS: &[u8] =
    b"\x00\x02\x00\x00\x00\x00\x03\x05\x05\x2c\x01\x00\x00\x00\x02\x00\x00\x00\x00\x03\x03\x04\x2c\x01";

/// The number 5, then an object, then the number 6.
const MIXED: &[u8] =
    b"\x00\x02\x00\x00\x00\x00\x03\x02\x03\x05\x00\x02\x00\x00\x00\x00\x03\x03\x01\x03\x00\x00\x02\x00\x00\x00\x00\x03\x02\x03\x06";

/// A head that announces a body of 2^32 bytes, and the first two bytes of it.
const HUGE: &[u8] = b"\x00\x02\x00\x00\x00\x00\x06\x00\x00\x00\x00\x01\x00\x00\x00\x02\x03";

/// Bodies of at most five bytes.
const FIVE: Limits = Limits {
    levels: 128,
    bytes: 5,
};
