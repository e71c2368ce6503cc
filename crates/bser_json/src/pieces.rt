//! Strings of a JSON text. A long one is written in pieces, so that its text is not kept.
ghost use Rattle.std.specs.Prelude.{[], ◌∷◌, ◌<◌, length, OnOk};
ghost use Rattle.std.specs.Str.{IsCharBoundary};
ghost use Rattle.hex.specs.Hex.{encode_lower};
ghost use Rattle.json.specs.Token as tokens;
ghost use Rattle.bser_json.specs.Printed.{Puts};

use crate::printing::Printing;
use bser_views::print_error::PrintError;
use json::Token;
use std::alloc::Global;
use std::io::Write;

/// How many bytes of a string a piece has at most.
const PIECE: usize = 4096;

impl<W: Write> Printing<W> {
    /// Puts a string.
    #[inline(always)]
    pub(crate) fn string(&mut self, alloc: Global, text: &str) -> Result<(), PrintError>
        ensures { OnOk result (Puts W.contents (tokens.string text.now ∷ []) self.old self.new) }
    {
        if text.len() <= PIECE {
            return self.token(Token::String(text));
        }
        self.long_string(alloc, text)
    }

    /// Puts a string of the bytes in hexadecimal.
    pub(crate) fn hexadecimal(&mut self, alloc: Global, bytes: &[u8]) -> Result<(), PrintError>
        ensures { OnOk result
            (Puts W.contents (tokens.string (encode_lower bytes.now) ∷ []) self.old self.new) }
    {
        if bytes.len() <= PIECE {
            let digits = hex::encode(alloc, bytes)?;
            return self.token(Token::String(digits.as_str()));
        }
        self.long_hexadecimal(alloc, bytes)
    }

    /// Puts a string piece by piece.
    #[cold]
    #[inline(never)]
    fn long_string(&mut self, alloc: Global, text: &str) -> Result<(), PrintError>
        ensures { OnOk result (Puts W.contents (tokens.string text.now ∷ []) self.old self.new) }
    {
        self.begin_string()?;
        let mut rest = text;
        while !rest.is_empty() {
            let (piece, behind) = rest.split_at(piece_end(rest));
            self.put_part(piece)?;
            rest = behind;
        }
        self.end_string()
    }

    /// Puts a string of the bytes in hexadecimal piece by piece.
    #[cold]
    #[inline(never)]
    fn long_hexadecimal(&mut self, alloc: Global, bytes: &[u8]) -> Result<(), PrintError>
        ensures { OnOk result
            (Puts W.contents (tokens.string (encode_lower bytes.now) ∷ []) self.old self.new) }
    {
        self.begin_string()?;
        let mut rest = bytes;
        while !rest.is_empty() {
            let (piece, behind) = rest.split_at(rest.len().min(PIECE));
            let digits = hex::encode(alloc, piece)?;
            self.put_part(digits.as_str())?;
            rest = behind;
        }
        self.end_string()
    }
}

/// Where the first piece of a text ends.
fn piece_end(text: &str) -> usize
    requires { 0 < length text.now }
    ensures some { 0 < result }
    ensures boundary { IsCharBoundary text.now result }
{
    match text.floor_char_boundary(PIECE) {
        0 => text.len(),
        end => end,
    }
}
