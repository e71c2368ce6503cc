//! What a Watchman server sends, as types: the answers to requests, what no request asked for, and
//! files.
//!
//! Texts are of a type parameter `S`. A `&str` and a `&[u8]` borrow from the message, a `String`
//! and a `ByteString` own what they hold; paths need not be UTF-8, so that `&[u8]` and
//! `ByteString` read each message. The server's texts may have the tag of a text or of a byte
//! string; all four types take both. Fields that are not named here are passed over.
//!
//! [`read_message`](message::read_message) reads a whole message where it is not known which one
//! comes. Each type is also read by itself, by `serde_bser::from_slice` and its like.
#![tactic(auto)]

pub mod error_reply;
pub mod file;
pub mod file_type;
pub mod header;
pub mod kind;
pub mod log;
pub mod message;
pub mod query;
pub mod requests;
pub mod state;
pub mod subscription;
pub mod version;
pub mod watch;
