//! Reals, by their bits.
use serde_bser::de::RealBits;
use serde_bser::errors::Result;
use serde_bser::ser::to_vec;
use std::alloc::Global;

/// The message of a float. A NaN is written as null.
pub fn real_message(alloc: Global, x: f64) -> Result<Vec<u8>> {
    to_vec(alloc, &RealBits::from_f64(x))
}
