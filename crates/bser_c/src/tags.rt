//! The tags of a tape. Those of values are the format's own.

/// The tag of a key that is spelled as a text.
pub const KEY: u8 = 0x0e;

/// The tag of a key that is spelled as a byte string.
pub const BYTES_KEY: u8 = 0x0f;

/// The tag of a template's rows.
pub const ROWS: u8 = 0x10;

/// The tag of a container's end.
pub const CLOSE: u8 = 0x11;

/// The greatest count in a word. A greater one is written as this.
pub const MOST_COUNT: u64 = (1 << 56) - 1;
