//! Messages that follow each other in a slice or come from a reader.

pub use bser_frames::error::{FrameError, MessageError};
pub use bser_frames::frames::Frames;
pub use bser_messages::length::message_length;
pub use bser_messages::next::{next_message, next_message_limited};
pub use bser_messages::reader_messages::ReaderMessages;
pub use bser_messages::slice_messages::SliceMessages;
