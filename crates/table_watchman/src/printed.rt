//! Messages that are read with texts that are owned, or borrowed, and printed by `Debug`.
use anyhow::{Result, ensure};
use bser_vectors::sums::is_text;
use serde_bser::bytestring::ByteString;
use serde_bser::de::{Deserialize, DeserializeOwned, Ignored, ObjectOr};
use serde_bser::device::Watched;
use serde_bser::{errors, from_reader};
use std::alloc::{AllocError, Global};
use std::fmt::Debug;
use watchman_types::file::File;
use watchman_types::log::{LogLevel, Logged};
use watchman_types::message::{Message, read_message};
use watchman_types::query::QueryResult;
use watchman_types::state::{StateEntered, StateLeft};
use watchman_types::subscription::{Flushed, Subscribed, Unsubscribed};
use watchman_types::version::Version;
use watchman_types::watch::{Clock, WatchList, WatchProject};

/// A file by its fields, or its name alone.
type AnyFile<N> = ObjectOr<File<N>, N>;

/// Calls a function at the type of an answer that has this name, with texts and names of files of
/// these types.
macro_rules! call_at_answer {
    ($function:ident, $text:ty, $name:ty, $answer:expr, $arguments:tt) => {
        match $answer {
            "version" => $function::<Version<$text>> $arguments,
            "watch_project" => $function::<WatchProject<$text>> $arguments,
            "watch_list" => $function::<WatchList<$text>> $arguments,
            "clock" => $function::<Clock<$text>> $arguments,
            "query" => $function::<QueryResult<$text, AnyFile<$name>>> $arguments,
            "subscribed" => $function::<Subscribed<$text>> $arguments,
            "unsubscribed" => $function::<Unsubscribed<$text>> $arguments,
            "flushed" => $function::<Flushed<$text>> $arguments,
            "state_entered" => $function::<StateEntered<$text>> $arguments,
            "state_left" => $function::<StateLeft<$text>> $arguments,
            "log_level" => $function::<LogLevel<$text>> $arguments,
            "logged" => $function::<Logged<$text>> $arguments,
            _ => $function::<Ignored> $arguments,
        }
    };
}

/// Whether the message, whose answer is of the type of this name, is printed as expected with owned
/// texts.
pub fn is_owned(alloc: Global, message: &[u8], answer: &str, expected: &str) -> Result<bool> {
    call_at_answer!(
        is_read_owned,
        ByteString,
        ByteString,
        answer,
        (alloc, message, expected)
    )
}

/// Whether the message, whose answer is of the type of this name, is printed as expected with
/// borrowed texts.
pub fn is_borrowed(alloc: Global, message: &[u8], answer: &str, expected: &str) -> Result<bool> {
    call_at_answer!(
        is_read_borrowed,
        &str,
        &[u8],
        answer,
        (alloc, message, expected)
    )
}

/// Whether the message is printed as expected, and an answer is the same from a reader.
fn is_read_owned<'a, T: Deserialize<&'a [u8]> + DeserializeOwned + Debug>(
    alloc: Global,
    message: &'a [u8],
    expected: &str,
) -> Result<bool> {
    let read = read_message::<ByteString, AnyFile<ByteString>, T>(alloc, message);
    if let Ok(Message::Answer(Ok(answer))) = &read {
        let text = format!(in alloc; "Ok({answer:?})")?;
        let again = from_reader::<_, T>(alloc, &mut Watched::new(message));
        ensure!(
            is_printed(alloc, &again, &text)?,
            "another value from a reader"
        );
    }
    Ok(is_printed(alloc, &read, expected)?)
}

/// Whether the message is printed as expected.
fn is_read_borrowed<'a, T: Deserialize<&'a [u8]> + Debug>(
    alloc: Global,
    message: &'a [u8],
    expected: &str,
) -> Result<bool> {
    let read = read_message::<&'a str, AnyFile<&'a [u8]>, T>(alloc, message);
    Ok(is_printed(alloc, &read, expected)?)
}

/// Whether `Debug` prints the text, which may be given by `#`, its length and its digest.
fn is_printed<T: Debug>(
    alloc: Global,
    answer: &errors::Result<T>,
    expected: &str,
) -> std::result::Result<bool, AllocError> {
    let text = format!(in alloc; "{answer:?}")?;
    is_text(alloc, text.as_str(), expected)
}
