//! The commands that read messages.

/// The words of each command that reads messages, and shows all of them.
pub const COMMANDS: [&[&str]; 8] = [
    &["show"],
    &["show", "--offsets"],
    &["json"],
    &["json", "--pretty"],
    &["summary"],
    &["get", ""],
    &["canon"],
    &["canon", "--compact"],
];
