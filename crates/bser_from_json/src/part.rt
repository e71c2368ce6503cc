//! The error of a text that is a part of another, and its place there.
ghost use Rattle.std.specs.Prelude.{◌+◌, ◌≤◌, IfOk, drop, length};
ghost use Rattle.bser_from_json.specs.Errors.{IsAt, IsErrorOf};
ghost use Rattle.bser_from_json.specs.Left.{IsRefused};
ghost use Rattle.bser_from_json.specs.Lines.{place_in};
ghost use Rattle.bser_from_json.specs.Made.{Outcome};
ghost use Rattle.bser_from_json.specs.Places.{first_fault};

use crate::fault::{JsonError, JsonFault, fault_of, place_of};
use crate::places::{place_behind, token_place};
use crate::tokens::TokenError;
use std::alloc::{AllocError, Global};

/// A text, and how many bytes of the whole stand before it.
#[derive(Clone, Copy, Drop)]
pub(crate) struct Part<'t> {
    pub(crate) whole: &'t str,
    pub(crate) text: &'t str,
    pub(crate) start: usize,
}

impl Part<'_> {
    /// The error of a refusal in the text.
    pub(crate) fn error_of(
        self,
        alloc: Global,
        refusal: TokenError,
    ) -> Result<JsonError, AllocError>
        ensures { (o : Outcome) → IsRefused o refusal
            → IfOk result (IsErrorOf self.entry.whole.now self.entry.text.now self.entry.start o) }
    {
        let bytes = self.text.as_bytes();
        match refusal {
            TokenError::OutOfMemory => Err(AllocError),
            TokenError::At(fault, number) => {
                Ok(self.error_at(fault, token_place(bytes, number.saturating_sub(1))))
            }
            TokenError::Lacks(count) => self.lack_at(alloc, token_place(bytes, count)),
            TokenError::Breaks(count) => self.lack_at(alloc, place_behind(bytes, count)),
        }
    }

    /// The error where the text has nothing that may stand behind so many of its bytes.
    fn lack_at(self, alloc: Global, offset: usize) -> Result<JsonError, AllocError>
        requires { offset ≤ length self.text.now }
        ensures { IfOk result (IsAt (first_fault (drop offset self.entry.text.now))
            (place_in self.entry.whole.now (self.entry.start + offset))) }
    {
        let fault = fault_of(alloc, &self.text.as_bytes()[offset..])?;
        Ok(self.error_at(fault, offset))
    }

    /// A fault behind so many bytes of the text.
    fn error_at(self, fault: JsonFault, offset: usize) -> JsonError
        ensures { IsAt fault (place_in self.entry.whole.now (self.entry.start + offset)) result }
    {
        let place = place_of(self.whole.as_bytes(), self.start.saturating_add(offset));
        JsonError::Text { fault, place }
    }
}
