//! A JSON text that is written token by token, on one line or on several.
ghost use Rattle.std.specs.Prelude.{◌≡◌, [], ◌∷◌, ◌++◌, List, Option, ℕ, true, OnOk};
ghost use Rattle.std.specs.Bool.{OnTrue};
ghost use Rattle.std.specs.Io.KnownBytes.{Appends};
ghost use Rattle.json.specs.Layout.{after};
ghost use Rattle.json.specs.Print.{IsPrintable, begins};
ghost use Rattle.json.specs.Reads.{token_of};
ghost use Rattle.json.specs.Token as tokens;
ghost use Rattle.bser_json.specs.Printed.{Prints, Puts, WritesKept, laid_out, last_of};
ghost use Rattle.bser_json.specs.Strings.{AddsPart, BeginsString, EndsString};
ghost use Rattle.bser_json.specs.declared.printing.Layout as layouts;

use crate::text::{put_escaped, put_gap, put_token};
use bser_views::print_error::PrintError;
use json::Token;
use std::alloc::{AllocError, Global};
use std::io::Write;

/// How many bytes are kept at most before they are written, but for a token's.
const MOST_BYTES: usize = 8192;

/// How a JSON text is laid out.
#[derive(Debug, Clone, Copy, PartialEq, Eq)]
pub enum Layout {
    /// On one line, without spaces.
    Line,
    /// A line for each item and each member, indented by two spaces a level.
    Pretty,
}

/// What was put last.
#[derive(Clone, Copy, Drop)]
pub(crate) enum Last {
    Nothing,
    Bracket,
    Key,
    Value,
}

/// A JSON text, as far as it is put, and the writer that takes it.
#[derive(Drop)]
pub(crate) struct Printing<W> {
    alloc: Global,
    out: W,
    layout: Layout,
    // the end of the text, which is not written
    text: Vec<u8>,
    last: Last,
    // how many brackets are open
    depth: usize,
}

impl<W: Write + Drop> Printing<W> {
    /// An empty text.
    pub(crate) fn new(alloc: Global, layout: Layout, out: W) -> Self
        ensures { Prints W.contents (W.contents out) layout [] result }
    {
        Printing {
            alloc,
            out,
            layout,
            text: Vec::new(alloc),
            last: Last::Nothing,
            depth: 0,
        }
    }

    /// Gives the writer back, and tells whether the text is whole. Where all of it was put, it is
    /// whole once what is kept is written.
    pub(crate) fn finish(self, is_put: bool) -> (W, bool)
        ensures put { OnTrue result.1 (is_put ≡ true) }
        ensures written { (start : Option (List ℕ)) (layout : layouts.Layout)
            (ts : List tokens.Token) → Prints W.contents start layout ts self
            → OnTrue result.1 (Appends start (W.contents result.0) (laid_out layout ts)) }
    {
        let Printing { mut out, text, .. } = self;
        let is_whole = is_put && out.write_all(&text).is_ok();
        (out, is_whole)
    }
}

impl<W: Write> Printing<W> {
    /// Puts a token. What is put is written where it is enough.
    #[inline(always)]
    pub(crate) fn token(&mut self, token: Token<'_>) -> Result<(), PrintError>
        requires { IsPrintable (token_of token) }
        ensures { OnOk result (Puts W.contents (token_of token.entry ∷ []) self.old self.new) }
    {
        let opens = begins(token);
        let depth = if opens {
            self.depth
        } else {
            self.depth.saturating_sub(1)
        };
        put_gap(&mut self.text, self.layout, self.last, opens, depth)?;
        put_token(&mut self.text, self.alloc, token)?;
        let (last, depth) = after(token, depth);
        self.last = last;
        self.depth = depth;
        self.write_much()
    }

    /// Begins a string.
    pub(crate) fn begin_string(&mut self) -> Result<(), PrintError>
        ensures { OnOk result (BeginsString W.contents self.old self.new) }
    {
        put_gap(&mut self.text, self.layout, self.last, true, self.depth)?;
        self.text.extend_from_slice(b"\"")?;
        self.last = Last::Value;
        Ok(())
    }

    /// Puts what stands for the next part of the string that was begun.
    pub(crate) fn put_part(&mut self, part: &str) -> Result<(), PrintError>
        ensures { OnOk result (AddsPart W.contents part.now self.old self.new) }
    {
        put_escaped(&mut self.text, self.alloc, part)?;
        self.write_much()
    }

    /// Ends the string that was begun.
    pub(crate) fn end_string(&mut self) -> Result<(), PrintError>
        ensures { OnOk result (EndsString W.contents self.old self.new) }
    {
        self.text.extend_from_slice(b"\"")?;
        Ok(())
    }

    /// Writes what is put where it is enough.
    #[inline(always)]
    fn write_much(&mut self) -> Result<(), PrintError>
        ensures { OnOk result (WritesKept W.contents self.old self.new) }
    {
        if self.text.len() < MOST_BYTES {
            return Ok(());
        }
        self.write()
    }

    /// Writes what is put.
    #[cold]
    #[inline(never)]
    fn write(&mut self) -> Result<(), PrintError>
        ensures { OnOk result (WritesKept W.contents self.old self.new) }
    {
        self.out.write_all(&self.text)?;
        self.text.clear();
        Ok(())
    }
}

/// Whether the token is not one that closes a container.
#[inline(always)]
fn begins(token: Token<'_>) -> bool
    ensures { result ≡ begins (token_of token.entry) }
{
    !matches!(token, Token::EndObject | Token::EndArray)
}

/// What is last behind a token at this depth, and how many brackets are open then.
#[inline(always)]
fn after(token: Token<'_>, depth: usize) -> (Last, usize)
    ensures { (last_of result.0, result.1) ≡ after (token_of token.entry) depth }
{
    match token {
        Token::BeginObject | Token::BeginArray => (Last::Bracket, depth.saturating_add(1)),
        Token::Key(_) => (Last::Key, depth),
        _ => (Last::Value, depth),
    }
}
