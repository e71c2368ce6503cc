//! The requests that were sent.
use serde_bser::errors::Result;
use serde_bser::from_slice;
use serde_bser::ser::{Serialize, to_vec};
use serde_bser::stream::SliceMessages;
use serde_bser::value::Value;
use std::alloc::Global;
use std::io;

/// The requests that were sent, and how many of those made agree.
#[derive(Drop)]
pub struct RecordedRequests<'a> {
    rt: &'a HostRuntime,
    sent: SliceMessages<'a>,
    same: u64,
    different: u64,
}

impl<'a> RecordedRequests<'a> {
    /// The requests in these bytes.
    pub fn new(rt: &'a HostRuntime, bytes: &'a [u8]) -> Self {
        RecordedRequests {
            rt,
            sent: SliceMessages::new(rt.alloc(), bytes),
            same: 0,
            different: 0,
        }
    }

    /// Compares a request with the next one that was sent, and prints its name if they differ.
    pub fn compare<T: Serialize>(&mut self, name: &str, request: &T) {
        if let Ok(true) = self.is_next(request) {
            self.same = self.same.saturating_add(1);
        } else {
            self.different = self.different.saturating_add(1);
            let _ = println!(self.rt; "not as sent: {name}");
        }
    }

    /// Prints how many requests were as those that were sent, and how many not.
    pub fn print_counts(&self) -> io::Result<()> {
        let left = self.sent.rest().len();
        println!(self.rt;
            "{} as sent, {} not, {left} bytes left",
            self.same, self.different
        )
    }

    /// Whether the request is printed as the next one that was sent.
    fn is_next<T: Serialize>(&mut self, request: &T) -> Result<bool> {
        let alloc = self.rt.alloc();
        let Some(sent) = self.sent.next_message::<Value>()? else {
            return Ok(false);
        };
        let made = from_slice::<Value>(alloc, &to_vec(alloc, request)?)?;
        Ok(printed(alloc, &made)?.as_str() == printed(alloc, &sent)?.as_str())
    }
}

/// The value on one line, byte strings and texts alike.
fn printed(alloc: Global, value: &Value) -> Result<String> {
    Ok(format!(in alloc; "{value}")?)
}
