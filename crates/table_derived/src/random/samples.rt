//! What leaves and keys are drawn from.

/// Integers at the borders of widths and types, and between them.
pub const INTEGERS: [i64; 19] = [
    0,
    1,
    5,
    -1,
    127,
    128,
    -128,
    -129,
    32_767,
    32_768,
    -32_768,
    -32_769,
    2_147_483_647,
    2_147_483_648,
    -2_147_483_648,
    -2_147_483_649,
    4_294_967_296,
    i64::MAX,
    i64::MIN,
];

/// Reals by their bits: zeros, halves, great and small ones, a number of 17 digits, infinities, NaNs.
pub const REALS: [u64; 12] = [
    0,
    0x8000_0000_0000_0000,
    0x3fe0_0000_0000_0000,
    0x4009_21fb_5444_2d18,
    0x0000_0000_0000_0001,
    0x7fef_ffff_ffff_ffff,
    0x4340_0000_0000_0000,
    0x3fb9_9999_9999_999a,
    0x7ff0_0000_0000_0000,
    0xfff0_0000_0000_0000,
    0x7ff8_0000_0000_0000,
    0xfff0_0000_0000_0001,
];

/// Texts: empty, short, of characters of each width, with what JSON escapes, and above 127 bytes.
pub const TEXTS: [&str; 11] = [
    "",
    "a",
    "src/lib.rs",
    "\u{e9}",
    "\u{20ac}",
    "\u{1f600}",
    "\0",
    "\"\\/\n\u{7f}\u{85}",
    "$bytes",
    "TestUnit",
    "--------------------------------------------------------------------------------------------------------------------------------",
];

/// Bytes that are no UTF-8.
pub const BYTES: [&[u8]; 4] = [b"\xff", b"a\xc0\x80", b"\xed\xa0\x80", b"\xf0\x9f\x98"];

/// Keys, with those of the types that are read.
pub const KEYS: [&str; 12] = [
    "a", "b", "", "abc", "def", "ghi", "name", "size", "files", "$", "$real", "\u{e9}\0",
];

/// Values in bytes, for the place of another: of each tag, and out of the range of small types.
pub const STRAYS: [&[u8]; 14] = [
    b"\x0a",
    b"\x08",
    b"\x03\x05",
    b"\x03\xff",
    b"\x05\x00\x00\x00\x80",
    b"\x06\x00\x00\x00\x80\x00\x00\x00\x00",
    b"\x07\x00\x00\x00\x00\x00\x00\xe0\x3f",
    b"\x02\x03\x01z",
    b"\x02\x03\x01\xff",
    b"\x0d\x03\x01z",
    b"\x00\x03\x00",
    b"\x00\x03\x02\x03\x01\x03\x02",
    b"\x01\x03\x01\x0d\x03\x01z\x03\x01",
    b"\x0b\x00\x03\x01\x0d\x03\x01a\x03\x01\x0c",
];
