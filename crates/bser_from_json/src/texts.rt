//! JSON texts written as messages.
ghost use Rattle.std.specs.Prelude.{◌≡◌, ◌∷◌, [], List, ℕ, IfErr, IfOk, MatchResult, OnOk};
ghost use Rattle.std.specs.Io.KnownBytes.{Appends};
ghost use Rattle.bser_format.specs.Compact.{compact_message};
ghost use Rattle.bser_value.specs.ValueView.{tree_of};
ghost use Rattle.bser_from_json.specs.Written.{
  BreaksOff,
  IsMessageOf,
  LeavesText,
  IsNoText,
  IsWithin,
  LacksMessage,
  LeavesTexts,
  WritesText,
  WritesTexts,
};

use crate::fault::{JsonError, JsonFault, Place, place_of};
use crate::incoming::ReadTexts;
use crate::reading::{Strings, message_of, value_of};
use bser_format::errors::Error;
use bser_shell::counted::CountedInput;
use bser_source::device::Watched;
use bser_value::compact::serialize_compact;
use bser_value::value::Value;
use std::alloc::Global;
use std::io::{ErrorKind, Read, Write};
use std::{fmt, io};

/// How messages are written.
#[derive(Debug, Clone, Copy, PartialEq, Eq)]
pub struct Writing {
    /// Whether templates are used where that is shorter.
    pub is_compact: bool,
    /// Under which tag strings are written.
    pub strings: Strings,
}

/// Why the messages of a text were not written.
#[derive(Debug, Drop)]
pub enum TextError {
    /// The text is not taken.
    Json(JsonError),
    /// A value cannot be written, or the output failed.
    Message(Error),
    /// The input cannot be read.
    Input(io::Error),
}

impl TextError {
    /// The error of a text that begins at this place.
    fn within(self, start: Place) -> TextError
        ensures { IsWithin self start result }
    {
        match self {
            TextError::Json(JsonError::Text { fault, place }) => TextError::Json(JsonError::Text {
                fault,
                place: start.around(place),
            }),
            other => other,
        }
    }
}

impl From<JsonError> for TextError {
    ghost use Rattle.bser_from_json.specs.declared.texts.TextError.TheVariants.{Json};
    ghost use Rattle.std.specs.Prelude.{◌≡◌};

    ghost from_gives = { λ error e. e ≡ Json error };

    fn from(error: JsonError) -> Self {
        TextError::Json(error)
    }
}

impl From<Error> for TextError {
    ghost use Rattle.bser_from_json.specs.declared.texts.TextError.TheVariants.{Message};
    ghost use Rattle.std.specs.Prelude.{◌≡◌};

    ghost from_gives = { λ error e. e ≡ Message error };

    fn from(error: Error) -> Self {
        TextError::Message(error)
    }
}

impl fmt::Display for TextError {
    fn fmt<W: fmt::Write>(&self, f: &mut fmt::Formatter<W>) -> fmt::Result {
        match self {
            TextError::Json(error) => write!(f, "{error}"),
            TextError::Message(error) => write!(f, "{error}"),
            TextError::Input(fault) => write!(f, "{fault}"),
        }
    }
}

/// Writes a message for each JSON text of `input`; blanks may stand between them. Its reports count
/// them, and all of them are written and flushed before the input is read again.
///
/// With an error the messages of the texts before it were written. `Json` is the fault of the next
/// text, of which nothing was written. `Message` is that of the output, of memory, or of a message
/// longer than `i64::MAX` bytes: then perhaps a beginning of one more was written. `Input` is the
/// reader's own error.
pub fn write_messages<R: Read, W: Write, E: Write>(
    alloc: Global,
    writing: Writing,
    input: &mut CountedInput<'_, '_, R, E>,
    out: &mut W,
) -> Result<(), TextError>
    ensures written { OnOk result
        (WritesTexts writing (W.contents out.old) (W.contents out.new)) }
    ensures refused { IfErr result
        (LeavesTexts writing (W.contents out.old) (W.contents out.new)) }
{
    let mut incoming = ReadTexts::new(alloc);
    for _ in 0..u64::MAX {
        if incoming.advance() {
            match write_text(alloc, writing, incoming.text(), out) {
                Ok(()) => {}
                Err(error) => return Err(error.within(incoming.place())),
            }
            input.reports().count_message();
            input.reports().work(incoming.text().len());
        } else if incoming.has_ended() {
            return Ok(());
        } else {
            if let Err(fault) = out.flush() {
                return Err(TextError::Message(Error::Io(fault)));
            }
            if let Err(fault) = incoming.read(input) {
                return Err(TextError::Input(fault));
            }
        }
    }
    Ok(())
}

/// Writes the message of a JSON text.
fn write_text<W: Write>(
    alloc: Global,
    writing: Writing,
    bytes: &[u8],
    out: &mut W,
) -> Result<(), TextError>
    ensures written { OnOk result
        (WritesText writing bytes.now (W.contents out.old) (W.contents out.new)) }
    ensures refused { IfErr result
        (LeavesText writing bytes.now (W.contents out.old) (W.contents out.new)) }
{
    let text = text_of(bytes)?;
    let message = message_in(alloc, writing, text)?;
    Ok(write_bytes(&message, out)?)
}

/// The message of a text.
fn message_in(alloc: Global, writing: Writing, text: &str) -> Result<Vec<u8>, TextError>
    ensures made { IfOk result (λ message. IsMessageOf writing text.now message.items) }
    ensures refused { IfErr result (LacksMessage writing text.now) }
{
    if writing.is_compact {
        let value = value_of(alloc, writing.strings, text, text, 0)?;
        return Ok(compact_of(alloc, value)?);
    }
    Ok(message_of(alloc, writing.strings, text, text, 0)?)
}

/// The compact message of a value.
fn compact_of(alloc: Global, value: Value) -> bser_format::errors::Result<Vec<u8>>
    ensures { IfOk result (λ message. message.items ≡ compact_message (tree_of value)) }
{
    let mut writer = Watched::new(Vec::new(alloc));
    match serialize_compact(alloc, &mut writer, &value) {
        Ok(()) => Ok(writer.into_inner()),
        Err(Error::Io(_)) => Err(Error::OutOfMemory),
        Err(error) => Err(error),
    }
}

/// Writes these bytes.
fn write_bytes<W: Write>(bytes: &[u8], out: &mut W) -> bser_format::errors::Result<()>
    ensures { MatchResult result
        (λ _. Appends (W.contents out.old) (W.contents out.new) bytes.now)
        (λ _. BreaksOff bytes.now (W.contents out.old) (W.contents out.new)) }
{
    let mut rest = bytes;
    while !rest.is_empty() {
        match out.write(rest) {
            Ok(0) => {
                let fault = io::Error::new(ErrorKind::WriteZero, "nothing taken");
                return Err(Error::Io(fault));
            }
            Ok(count) => rest = rest.split_at(count).1,
            Err(fault) => return Err(Error::Io(fault)),
        }
    }
    Ok(())
}

/// The bytes as a text.
fn text_of(bytes: &[u8]) -> Result<&str, TextError>
    ensures { MatchResult result (λ text. text.now ≡ bytes.now) (IsNoText bytes.now) }
{
    match std::str::from_utf8(bytes) {
        Ok(text) => Ok(text),
        Err(error) => Err(TextError::Json(JsonError::Text {
            fault: JsonFault::NotUtf8,
            place: place_of(bytes, error.valid_up_to()),
        })),
    }
}
