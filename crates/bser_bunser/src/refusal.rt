//! What a call on a hot path answers where it fails.

/// A failure. The reader keeps its error.
#[derive(Debug, Clone, Copy)]
pub struct Refused;

/// The result of a call: what was asked for, or a failure.
///
/// A `Result` with an error in it is as great as the error, and is copied at each call, also where
/// all goes well. A [`Refused`] has no content.
pub type Answer<T> = std::result::Result<T, Refused>;
