//! How many cases of a list are wrong.
use std::fmt::Display;
use std::io;
use std::io::Print;

/// How many cases were compared, and how many of them are wrong.
#[derive(Clone, Copy, Default)]
pub struct CaseCounts {
    /// How many were compared.
    pub cases: u64,
    /// How many of them are wrong.
    pub wrong: u64,
}

impl CaseCounts {
    /// Counts a case.
    pub fn count(&mut self, is_right: bool) {
        self.cases = self.cases.saturating_add(1);
        if !is_right {
            self.wrong = self.wrong.saturating_add(1);
        }
    }

    /// Counts a case. One that is wrong is printed, with its name.
    pub fn add<N: Display + Drop, P: Print>(
        &mut self,
        rt: &P,
        name: N,
        mismatch: Option<&str>,
    ) -> io::Result<()> {
        self.count(mismatch.is_none());
        match mismatch {
            Some(what) => println!(rt; "{name}: {what}"),
            None => Ok(()),
        }
    }
}
