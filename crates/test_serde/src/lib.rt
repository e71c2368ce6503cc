//! Types with derives of the kit's serde, with their tests.
#![tactic(auto)]

#[cfg(test)]
mod tests;
mod types;
