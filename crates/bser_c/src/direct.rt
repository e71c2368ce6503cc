//! Reporting a message that is there whole, container by container.
//!
//! What is not read so is left to the reader that tells why: no fault has a name here, and nothing
//! is kept of the containers that are open.
ghost use Rattle.std.specs.Prelude.{◌≡◌, ◌≤◌, length, true, false, IfSome};
ghost use Rattle.bser_format.specs.Grammar.{SpellsCount};
ghost use Rattle.bser_format.specs.Message.{Head};
ghost use Rattle.bser_source.specs.Window.{AreOctets};
ghost use Rattle.bser_bunser.specs.Tokens.{SpellsToken};
ghost use Rattle.bser_bunser.specs.declared.prefix.Token.TheVariants as tokens;
ghost use Rattle.bser_events.specs.Places.{place_at};
ghost use Rattle.bser_events.specs.Told.{told};
ghost use Rattle.bser_messages.specs.Limited.{usual_limits};
ghost use Rattle.bser_messages.specs.Told.{BeginsTold};
ghost use Rattle.bser_c.specs.Direct.{Stands, TellsField, TellsKey, TellsKeys, TellsRow, TellsRows, TellsString, TellsValue};

use bser_bunser::prefix::{Prefix, Token, length_prefix, token_prefix};
use bser_events::builder::Builder;
use bser_events::event::{Event, Place};
use bser_format::header::{BSER_ARRAY, BSER_SKIP, HEADER_START};
use bser_messages::told::Header;
use bser_source::read::count_octets;
use bser_source::text::as_text;
use byteorder::{ByteOrder, LittleEndian};

/// How many levels are read here, by calls within calls.
const FEW_LEVELS: usize = 8;

/// A token, and where what follows it begins.
#[derive(Clone, Copy)]
struct TokenEnd {
    token: Token,
    end: usize,
}

/// A count, and where what follows it begins.
#[derive(Clone, Copy)]
struct CountEnd {
    count: usize,
    end: usize,
}

/// Reports the message at the start of `bytes` to the builder, event by event, and returns its
/// header. What follows the message is ignored.
///
/// None says nothing of the bytes, and the builder then took some events or none.
#[inline(always)]
pub(crate) fn tell_whole<B: Builder>(bytes: &[u8], builder: &mut B) -> Option<Header>
    ensures { IfSome result
        (BeginsTold usual_limits B.takes bytes.now builder.old builder.new) }
{
    let header = header_of(bytes)?;
    let end = value(bytes, header.start, FEW_LEVELS, builder)?;
    if end - header.start != header.len {
        return None;
    }
    Some(header)
}

/// The header at the start of these bytes.
#[inline(always)]
fn header_of(bytes: &[u8]) -> Option<Header>
    ensures head { IfSome result (λ h. Stands (Head h.capabilities h.len) bytes.now 0 h.start) }
    ensures octets { IfSome result (λ _. AreOctets bytes.now) }
{
    if count_octets(bytes) < HEADER_START.len()
        || bytes[0] != HEADER_START[0]
        || bytes[1] != HEADER_START[1]
    {
        return None;
    }
    let len = count_at(bytes, HEADER_START.len())?;
    Some(Header {
        capabilities: LittleEndian::read_u32(&bytes[2..HEADER_START.len()]),
        start: len.end,
        len: len.count,
    })
}

/// The count that stands there.
#[inline(always)]
fn count_at(bytes: &[u8], at: usize) -> Option<CountEnd>
    requires { at ≤ length bytes.now }
    ensures { IfSome result (λ c. Stands (SpellsCount c.count) bytes.now at c.end) }
{
    match length_prefix(&bytes[at..]) {
        Prefix::Found { value: count, len } => Some(CountEnd {
            count,
            end: at + len,
        }),
        _ => None,
    }
}

/// The token that stands there.
#[inline(always)]
fn token_at(bytes: &[u8], at: usize) -> Option<TokenEnd>
    requires { at ≤ length bytes.now }
    ensures { IfSome result (λ t. Stands (SpellsToken t.token) bytes.now at t.end) }
{
    match token_prefix(&bytes[at..]) {
        Prefix::Found { value: token, len } => Some(TokenEnd {
            token,
            end: at + len,
        }),
        _ => None,
    }
}

/// Reports an event between two places, and returns the second. None where the builder takes no
/// more.
#[inline(always)]
fn tell<B: Builder>(
    event: Event<'_>,
    start: usize,
    end: usize,
    is_text: bool,
    builder: &mut B,
) -> Option<usize>
    requires { start ≤ end }
    ensures taken { IfSome result (λ _. B.takes builder.old (told event.entry)
        (place_at start end is_text) builder.new) }
    ensures end { IfSome result (λ to. to ≡ end) }
{
    let place = Place {
        start,
        end,
        is_text,
    };
    match builder.take(event, place) {
        Ok(()) => Some(end),
        Err(_) => None,
    }
}

/// Reports the value that stands there, and returns where it ends.
#[cycle(tell)]
#[inline(always)]
fn value<B: Builder>(bytes: &[u8], start: usize, levels: usize, builder: &mut B) -> Option<usize>
    requires { start ≤ length bytes.now }
    ensures { IfSome result (λ to.
        TellsValue B.takes levels bytes.now start to builder.old builder.new) }
{
    let TokenEnd { token, end } = token_at(bytes, start)?;
    match token {
        Token::Null => tell(Event::Null, start, end, false, builder),
        Token::Bool(truth) => tell(Event::Bool(truth), start, end, false, builder),
        Token::Int(number) => tell(Event::Int(number), start, end, false, builder),
        Token::Real(bits) => tell(Event::Real(bits), start, end, false, builder),
        Token::Str { is_text, len } => string(bytes, start, end, is_text, len, builder),
        Token::Array { len } => array(bytes, start, end, len, levels, builder),
        Token::Object { len } => object(bytes, start, end, len, levels, builder),
        Token::Template => template(bytes, start, end, levels, builder),
        Token::Skip => None,
    }
}

/// Reports a string of which the head stands there, and returns where it ends.
#[inline(always)]
fn string<B: Builder>(
    bytes: &[u8],
    start: usize,
    at: usize,
    is_text: bool,
    len: usize,
    builder: &mut B,
) -> Option<usize>
    requires { Stands (SpellsToken (tokens.Str is_text len)) bytes.now start at }
    ensures { IfSome result (λ to.
        TellsString B.takes bytes.now start to builder.old builder.new) }
{
    if is_text {
        text(bytes, start, at, len, builder)
    } else {
        byte_string(bytes, start, at, len, builder)
    }
}

/// Reports a text of which the head stands there, and returns where it ends.
#[inline(always)]
fn text<B: Builder>(
    bytes: &[u8],
    start: usize,
    at: usize,
    len: usize,
    builder: &mut B,
) -> Option<usize>
    requires { Stands (SpellsToken (tokens.Str true len)) bytes.now start at }
    ensures { IfSome result (λ to.
        TellsString B.takes bytes.now start to builder.old builder.new) }
{
    if bytes.len() - at < len {
        return None;
    }
    let end = at + len;
    let text = as_text(&bytes[at..end])?;
    tell(Event::Text(text), start, end, true, builder)
}

/// Reports a byte string of which the head stands there, and returns where it ends.
#[inline(always)]
fn byte_string<B: Builder>(
    bytes: &[u8],
    start: usize,
    at: usize,
    len: usize,
    builder: &mut B,
) -> Option<usize>
    requires { Stands (SpellsToken (tokens.Str false len)) bytes.now start at }
    ensures { IfSome result (λ to.
        TellsString B.takes bytes.now start to builder.old builder.new) }
{
    if bytes.len() - at < len {
        return None;
    }
    let end = at + len;
    tell(Event::Bytes(&bytes[at..end]), start, end, false, builder)
}

/// Reports the key that stands there, which is UTF-8, and returns where it ends.
#[inline(always)]
fn key<B: Builder>(bytes: &[u8], start: usize, builder: &mut B) -> Option<usize>
    requires { start ≤ length bytes.now }
    ensures told { IfSome result (λ to.
        TellsKey B.takes bytes.now start to builder.old builder.new) }
    ensures within { IfSome result (λ to. to ≤ length bytes.now) }
{
    let TokenEnd { token, end: at } = token_at(bytes, start)?;
    let Token::Str { is_text, len } = token else {
        return None;
    };
    if bytes.len() - at < len {
        return None;
    }
    let end = at + len;
    let key = as_text(&bytes[at..end])?;
    tell(Event::Key(key), start, end, is_text, builder)
}

/// Reports an array of which the head stands there, and returns where it ends.
#[cycle(tell)]
#[inline(never)]
fn array<B: Builder>(
    bytes: &[u8],
    start: usize,
    at: usize,
    count: usize,
    levels: usize,
    builder: &mut B,
) -> Option<usize>
    requires { Stands (SpellsToken (tokens.Array count)) bytes.now start at }
    ensures { IfSome result (λ to.
        TellsValue B.takes levels bytes.now start to builder.old builder.new) }
{
    if levels == 0 {
        return None;
    }
    tell(Event::Array { len: count }, start, at, false, builder)?;
    let mut end = at;
    for _ in 0..count {
        end = value(bytes, end, levels - 1, builder)?;
    }
    tell(Event::Close, end, end, false, builder)
}

/// Reports an object of which the head stands there, and returns where it ends.
#[cycle(tell)]
#[inline(never)]
fn object<B: Builder>(
    bytes: &[u8],
    start: usize,
    at: usize,
    count: usize,
    levels: usize,
    builder: &mut B,
) -> Option<usize>
    requires { Stands (SpellsToken (tokens.Object count)) bytes.now start at }
    ensures { IfSome result (λ to.
        TellsValue B.takes levels bytes.now start to builder.old builder.new) }
{
    if levels == 0 {
        return None;
    }
    tell(Event::Object { len: count }, start, at, false, builder)?;
    let mut end = at;
    for _ in 0..count {
        let value_start = key(bytes, end, builder)?;
        end = value(bytes, value_start, levels - 1, builder)?;
    }
    tell(Event::Close, end, end, false, builder)
}

/// Reports a template of which the tag stands there, and returns where it ends.
#[cycle(tell)]
#[inline(never)]
fn template<B: Builder>(
    bytes: &[u8],
    start: usize,
    at: usize,
    levels: usize,
    builder: &mut B,
) -> Option<usize>
    requires { Stands (SpellsToken tokens.Template) bytes.now start at }
    ensures { IfSome result (λ to.
        TellsValue B.takes levels bytes.now start to builder.old builder.new) }
{
    if levels < 2 || at == bytes.len() || bytes[at] != BSER_ARRAY {
        return None;
    }
    let CountEnd {
        count: width,
        end: names,
    } = count_at(bytes, at + 1)?;
    tell(Event::Template { len: width }, start, names, false, builder)?;
    let head = keys(bytes, names, width, builder)?;
    let CountEnd {
        count: height,
        end: begun,
    } = count_at(bytes, head)?;
    if width == 0 && height != 0 {
        return None;
    }
    tell(Event::Rows { len: height }, head, begun, false, builder)?;
    let last = rows(bytes, begun, width, height, levels - 1, builder)?;
    tell(Event::Close, last, last, false, builder)
}

/// Reports so many keys that stand there, and returns where they end.
#[inline(always)]
fn keys<B: Builder>(bytes: &[u8], start: usize, count: usize, builder: &mut B) -> Option<usize>
    requires { start ≤ length bytes.now }
    ensures { IfSome result (λ to.
        TellsKeys B.takes count bytes.now start to builder.old builder.new) }
{
    let mut end = start;
    for _ in 0..count {
        end = key(bytes, end, builder)?;
    }
    Some(end)
}

/// Reports so many rows that stand there, and returns where they end.
#[cycle(tell)]
#[inline(always)]
fn rows<B: Builder>(
    bytes: &[u8],
    start: usize,
    width: usize,
    height: usize,
    levels: usize,
    builder: &mut B,
) -> Option<usize>
    requires { start ≤ length bytes.now }
    ensures { IfSome result (λ to.
        TellsRows B.takes levels width height bytes.now start to builder.old builder.new) }
{
    let mut end = start;
    for _ in 0..height {
        end = row(bytes, end, width, levels, builder)?;
    }
    Some(end)
}

/// Reports a row of so many fields that stands there, and returns where it ends.
#[cycle(tell)]
#[inline(always)]
fn row<B: Builder>(
    bytes: &[u8],
    start: usize,
    width: usize,
    levels: usize,
    builder: &mut B,
) -> Option<usize>
    requires { start ≤ length bytes.now }
    ensures { IfSome result (λ to.
        TellsRow B.takes levels width bytes.now start to builder.old builder.new) }
{
    let mut end = start;
    for _ in 0..width {
        end = field(bytes, end, levels, builder)?;
    }
    Some(end)
}

/// Reports the field that stands there, and returns where it ends.
#[cycle(tell)]
#[inline(always)]
fn field<B: Builder>(bytes: &[u8], start: usize, levels: usize, builder: &mut B) -> Option<usize>
    requires { start ≤ length bytes.now }
    ensures { IfSome result (λ to.
        TellsField B.takes levels bytes.now start to builder.old builder.new) }
{
    if start < bytes.len() && bytes[start] == BSER_SKIP {
        return tell(Event::Skip, start, start + 1, false, builder);
    }
    value(bytes, start, levels, builder)
}
