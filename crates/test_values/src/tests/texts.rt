//! What is compared by its text.
use std::fmt;
use std::fmt::{Debug, Write};

/// What is left of a text that is to be printed.
#[derive(Drop)]
struct Expected<'a> {
    left: &'a str,
}

impl<'a> Write for Expected<'a> {
    fn write_str(&mut self, s: &str) -> fmt::Result {
        match self.left.strip_prefix(s) {
            Some(left) => {
                self.left = left;
                Ok(())
            }
            None => Err(fmt::Error),
        }
    }
}

/// Whether `Debug` prints the value as this text. It takes no memory.
pub fn is_printed<T: Debug + Drop>(value: T, text: &str) -> bool {
    let mut expected = Expected { left: text };
    write!(expected, "{value:?}").is_ok() && expected.left.is_empty()
}
