//! What derives read and write.
mod checking;
mod checks;
mod forms;
mod memory;
mod reading;
mod refusals;
mod strings;

/// Three rows over the keys "name" and "age", of which the last skips the name, from the Watchman
/// project's page on the format.
const PEOPLE: &[u8] =
    b"\x00\x02\x00\x00\x00\x00\x03\x28\x0b\x00\x03\x02\x02\x03\x04name\x02\x03\x03age\
\x03\x03\x02\x03\x04fred\x03\x14\x02\x03\x04pete\x03\x1e\x0c\x03\x19";
