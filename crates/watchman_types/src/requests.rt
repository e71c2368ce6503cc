//! What a client sends to Watchman, as types that are written.
//!
//! Each request is a struct with named fields, and is written as Watchman's array: the name of the
//! command, then its arguments. What is a path or a file's name is written as a byte string, and
//! any other string as a text. All borrow what they hold.
pub mod bytes;
pub mod comparison;
pub mod expression;
pub mod log;
pub mod moment;
pub mod nesting;
pub mod object;
pub mod query;
pub mod state;
pub mod subscription;
pub mod terms;
pub mod version;
pub mod watch;

pub use crate::file_type::FileType;
pub use crate::requests::bytes::Bytes;
pub use crate::requests::comparison::{Comparison, Operator};
pub use crate::requests::expression::Expression;
pub use crate::requests::log::{Level, LogLevelRequest, LogRequest};
pub use crate::requests::moment::{Moment, TimeField};
pub use crate::requests::query::{Path, Query, QueryRequest};
pub use crate::requests::state::{StateEnterRequest, StateLeaveRequest};
pub use crate::requests::subscription::{
    FlushSubscriptionsRequest, SubscribeRequest, UnsubscribeRequest,
};
pub use crate::requests::terms::{Dirname, Match, MatchFlags, Name, Names, Pcre, Scope, Since};
pub use crate::requests::version::{Capabilities, VersionRequest};
pub use crate::requests::watch::{ClockRequest, WatchProjectRequest};
