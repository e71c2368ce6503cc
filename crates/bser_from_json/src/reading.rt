//! The message of a JSON text, and its value.
ghost use Rattle.std.specs.Prelude.{◌≡◌, ◌+◌, suc, false, [], List, length, ◌≤◌, ⊤, IfOk, IfErr};
ghost use Rattle.json.specs.Lex.{tokens};
ghost use Rattle.json.specs.Reads.{token_of};
ghost use Rattle.json.specs.Token.{begin_array};
ghost use Rattle.bser_value.specs.ValueView.{tree_of};
ghost use Rattle.bser_from_json.specs.Made.{
  Around,
  Outcome,
  a_first_member,
  a_string,
  a_value,
  made,
  makes,
  mark_in,
  member_step,
  value_step,
};
ghost use Rattle.bser_from_json.specs.Errors.{IsErrorOf};
ghost use Rattle.bser_from_json.specs.Bodies.{MakesMessage};
ghost use Rattle.bser_from_json.specs.Left.{ComesInside, ComesTo, ComesWhere, IsPut, IsRefused, due_to, opens, step_to};

use crate::body::{EntrySpan, message, no_parts, with_array, with_key, with_object, with_value};
use crate::fault::{JsonError, JsonFault};
use crate::meaning::{Mark, new_name, number_of, string_of};
use crate::part::Part;
use crate::tokens::{TokenError, Tokens};
use bser_deserializer::deserializer::LEVELS;
use bser_messages::message::from_slice;
use bser_ser::message::gap;
use bser_value::value::Value;
use json::{Reader, Scratch, Token};
use std::alloc::Global;
use std::collections::BTreeMap;

/// Under which tag strings are written.
#[derive(Debug, Clone, Copy, PartialEq, Eq)]
pub enum Strings {
    /// As texts.
    Texts,
    /// As byte strings.
    Bytes,
}

/// Reads the value of `text`, which begins at byte `start` of `whole`. An error's place is in
/// `whole`.
///
/// It takes the forms that JSON texts have here for what JSON cannot say. Else it is an error where
/// the text is no JSON, an integer needs more than 64 bits, an object has equal keys, or a key
/// begins with one `$`.
pub fn value_of<'t>(
    alloc: Global,
    strings: Strings,
    whole: &'t str,
    text: &'t str,
    start: usize,
) -> Result<Value, JsonError>
    ensures made { IfOk result (λ v. made strings (tokens text.now) ≡ makes (tree_of v)) }
    ensures refused { IfErr result
        (IsErrorOf whole.now text.now start (made strings (tokens text.now))) }
{
    let message = message_of(alloc, strings, whole, text, start)?;
    match from_slice(alloc, message.as_slice()) {
        Ok(value) => Ok(value),
        Err(_) => Err(JsonError::OutOfMemory),
    }
}

/// Returns the canonical message of the value of `text`, and makes no `Value` of it. The errors are
/// those of [`value_of`].
pub fn message_of<'t>(
    alloc: Global,
    strings: Strings,
    whole: &'t str,
    text: &'t str,
    start: usize,
) -> Result<Vec<u8>, JsonError>
    ensures made { IfOk result (λ message.
        MakesMessage (made strings (tokens text.now)) message.items) }
    ensures refused { IfErr result
        (IsErrorOf whole.now text.now start (made strings (tokens text.now))) }
{
    let mut scratch = Scratch::new(alloc);
    let reader = Reader::new(text, &mut scratch)?;
    let mut tokens = Tokens::new(reader);
    let reading = Reading { alloc, strings };
    let front = gap(alloc)?;
    match reading.whole(&mut tokens, front) {
        Ok(bytes) => Ok(message(bytes)?),
        Err(refusal) => Err(Part { whole, text, start }.error_of(alloc, refusal)?),
    }
}

/// How a text is read.
#[derive(Clone, Copy)]
struct Reading {
    alloc: Global,
    strings: Strings,
}

impl Reading {
    /// The one value of a text.
    fn whole(&self, tokens: &mut Tokens<'_>, bytes: Vec<u8>) -> Result<Vec<u8>, TokenError>
        ensures { ComesTo (due_to self.now.strings tokens.old (a_value [])) makes
            bytes.items result }
    {
        let first = tokens.next()?;
        let all = self.value(tokens, first, LEVELS, bytes)?;
        tokens.end()?;
        Ok(all)
    }

    /// The value that begins with the token that was taken last, and may nest so many levels.
    #[cycle(value)]
    fn value<'t>(
        &self,
        tokens: &mut Tokens<'t>,
        first: Token<'t>,
        levels: usize,
        bytes: Vec<u8>,
    ) -> Result<Vec<u8>, TokenError>
        ensures comes { ComesInside levels self.now.strings
            (λ os. step_to self.now.strings tokens.old
            (value_step self.now.strings os (token_of first.entry))) tokens.new bytes.items result }
        ensures fewer { length tokens.new.reader ≤ length tokens.old.reader }
    {
        match first {
            Token::BeginArray => self.array(tokens, levels, bytes),
            Token::BeginObject => self.object(tokens, levels, bytes),
            _ => {
                let scalar = self.scalar(tokens, first)?;
                Ok(with_value(self.alloc, bytes, &scalar)?)
            }
        }
    }

    /// The value of the token that was taken last, which opens no container.
    fn scalar(&self, tokens: &Tokens<'_>, token: Token<'_>) -> Result<Value, TokenError>
        requires { opens (token_of token) ≡ false }
        ensures { (os : List Around) → IsPut self.now.strings tokens.now os
            (value_step self.now.strings os (token_of token.entry)) result }
    {
        match token {
            Token::Null => Ok(Value::Null),
            Token::Bool(truth) => Ok(Value::Bool(truth)),
            Token::String(text) => Ok(string_of(self.alloc, self.strings, text)?),
            Token::Number(text) => match number_of(text) {
                Ok(number) => Ok(number),
                Err(fault) => Err(tokens.refuse(fault)),
            },
            Token::Key(_) => Err(tokens.break_off()),
            _ => Err(tokens.refuse(JsonFault::NotJson)),
        }
    }

    /// An array, whose bracket was taken last.
    #[cycle(value)]
    fn array<'t>(
        &self,
        tokens: &mut Tokens<'t>,
        levels: usize,
        bytes: Vec<u8>,
    ) -> Result<Vec<u8>, TokenError>
        ensures comes { ComesInside levels self.now.strings
            (λ os. step_to self.now.strings tokens.old
            (value_step self.now.strings os begin_array)) tokens.new bytes.items result }
        ensures fewer { length tokens.new.reader ≤ length tokens.old.reader }
    {
        if levels == 0 {
            return Err(tokens.refuse(JsonFault::TooDeep));
        }
        let mut items = no_parts(self.alloc)?;
        let mut count = 0;
        loop {
            let token = tokens.next()?;
            if let Token::EndArray = token {
                return Ok(with_array(self.alloc, bytes, count, &items)?);
            }
            items = self.value(tokens, token, levels - 1, items)?;
            count += 1;
        }
    }

    /// An object or what is marked, whose bracket was taken last.
    #[cycle(value)]
    fn object<'t>(
        &self,
        tokens: &mut Tokens<'t>,
        levels: usize,
        bytes: Vec<u8>,
    ) -> Result<Vec<u8>, TokenError>
        ensures comes { ComesInside levels self.now.strings
            (λ os. due_to self.now.strings tokens.old (a_first_member os))
            tokens.new bytes.items result }
        ensures fewer { length tokens.new.reader ≤ length tokens.old.reader }
    {
        let begun = tokens.taken();
        let first = tokens.next()?;
        if let Some(mark) = mark_in(first) {
            return self.marked(tokens, mark, bytes);
        }
        if levels == 0 {
            return Err(TokenError::At(JsonFault::TooDeep, begun));
        }
        self.members(tokens, first, levels - 1, bytes)
    }

    /// An object with the members that begin with the token that was taken last.
    #[cycle(value)]
    fn members<'t>(
        &self,
        tokens: &mut Tokens<'t>,
        first: Token<'t>,
        levels: usize,
        bytes: Vec<u8>,
    ) -> Result<Vec<u8>, TokenError>
        ensures comes { ComesInside (suc levels) self.now.strings
            (λ os. step_to self.now.strings tokens.old (member_step [] os (token_of first.entry)))
            tokens.new bytes.items result }
        ensures fewer { length tokens.new.reader ≤ length tokens.old.reader }
    {
        let mut entries = BTreeMap::new(self.alloc);
        let mut parts = no_parts(self.alloc)?;
        let mut next = first;
        loop {
            let key = match next {
                Token::EndObject => return Ok(with_object(self.alloc, bytes, &entries, &parts)?),
                Token::Key(key) => key,
                Token::String(_) => return Err(tokens.break_off()),
                _ => return Err(tokens.refuse(JsonFault::NotJson)),
            };
            let name = match new_name(key, &entries) {
                Ok(name) => name,
                Err(fault) => return Err(tokens.refuse(fault)),
            };
            let start = parts.len();
            parts = with_key(self.alloc, parts, name)?;
            let token = tokens.next()?;
            parts = self.value(tokens, token, levels, parts)?;
            let end = parts.len();
            let span = EntrySpan { start, end };
            entries.insert(name, span)?;
            next = tokens.next()?;
        }
    }

    /// What is marked, behind its key.
    fn marked(
        &self,
        tokens: &mut Tokens<'_>,
        mark: Mark,
        bytes: Vec<u8>,
    ) -> Result<Vec<u8>, TokenError>
        ensures comes { ComesWhere (λ os. ⊤) self.now.strings
            (λ os. due_to self.now.strings tokens.old (a_string mark os))
            tokens.new bytes.items result }
        ensures fewer { length tokens.new.reader ≤ length tokens.old.reader }
    {
        let token = tokens.next()?;
        let Some(value) = mark.value(self.alloc, token)? else {
            return Err(tokens.refuse(mark.fault()));
        };
        match tokens.next()? {
            Token::EndObject => Ok(with_value(self.alloc, bytes, &value)?),
            _ => Err(tokens.refuse(JsonFault::MarkWithMembers)),
        }
    }
}

/// What the token marks, if it is the key of a mark.
fn mark_in(token: Token<'_>) -> Option<Mark>
    ensures { result ≡ mark_in (token_of token.entry) }
{
    match token {
        Token::Key(key) => Mark::of(key),
        _ => None,
    }
}
