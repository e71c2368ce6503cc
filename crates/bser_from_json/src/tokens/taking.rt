//! Tokens that are taken.
ghost use Rattle.std.specs.Prelude.{◌≡◌, ◌≤◌, length};
ghost use Rattle.json.specs.Reads.{token_of};
ghost use Rattle.bser_from_json.specs.Made.{is_bad};
ghost use Rattle.bser_from_json.specs.Left.{EndsThere, Takes};
ghost use Rattle.bser_from_json.specs.declared.tokens.TokenError.TheVariants.{At, Breaks};

use crate::fault::JsonFault;
use crate::tokens::{TokenError, Tokens};
use json::Token;

impl<'a> Tokens<'a> {
    /// Takes the next token.
    pub(crate) fn next(&mut self) -> Result<Token<'a>, TokenError>
        ensures taken { Takes self.old self.new result }
        ensures fewer { length self.new.reader ≤ length self.old.reader }
    {
        let Some(token) = self.reader.next() else {
            return Err(TokenError::Lacks(self.taken));
        };
        if is_bad(token) {
            return Err(TokenError::Lacks(self.taken));
        }
        self.taken += 1;
        Ok(token)
    }

    /// Refuses the token that was taken last.
    pub(crate) fn refuse(&self, fault: JsonFault) -> TokenError
        ensures { result ≡ At fault self.now.taken }
    {
        TokenError::At(fault, self.taken)
    }

    /// Refuses what stands right behind the token that was taken last.
    pub(crate) fn break_off(&self) -> TokenError
        ensures { result ≡ Breaks self.now.taken }
    {
        TokenError::Breaks(self.taken)
    }

    /// No token may follow.
    pub(crate) fn end(&mut self) -> Result<(), TokenError>
        ensures { EndsThere self.old result }
    {
        match self.reader.next() {
            Some(_) => Err(self.break_off()),
            None => Ok(()),
        }
    }
}

/// Whether the text has no token here.
fn is_bad(token: Token<'_>) -> bool
    ensures { result ≡ is_bad (token_of token.entry) }
{
    matches!(token, Token::Bad)
}
