//! The types that are read.
pub mod arrays;
pub mod deques;
pub mod hash_maps;
pub mod holders;
pub mod ignored;
pub mod integers;
pub mod keys;
pub mod lists;
pub mod maps;
pub mod scalars;
pub mod sets;
pub mod strings;
pub mod tuples;

pub use crate::impls::ignored::{Ignored, SkipsValues};
pub use crate::impls::keys::MapKey;
pub use crate::impls::scalars::RealBits;
