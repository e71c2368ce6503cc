//! A value as JSON.
ghost use Rattle.std.specs.Prelude.{◌≡◌, ◌∷◌, ◌++◌, ℕ, List, [], codes, IfErr, IfOk, OnOk};
ghost use Rattle.std.specs.Float.{float_is_finite};
ghost use Rattle.std.specs.Map.{keys_of};
ghost use Rattle.bser_format.specs.Tree.{Tree, integer, array, object, entries, entries_of};
ghost use Rattle.bser_format.specs.Tree as trees;
ghost use Rattle.bser_document.specs.Holds.{HoldsItem};
ghost use Rattle.bser_document.specs.Order.{FindsField, HoldsFields, last_places, shown};
ghost use Rattle.bser_document.specs.Pairs.{HoldsEntries};
ghost use Rattle.bser_document.specs.Put.{IsPlain};
ghost use Rattle.bser_document.specs.Rows.{HoldsRows, Pair, row_object, row_objects};
ghost use Rattle.bser_document.specs.Sorted.{Lists};
ghost use Rattle.bser_document.specs.Walks.{HoldsItems};
ghost use Rattle.bser_format.specs.Normal.{last_entries};
ghost use Rattle.bser_source.specs.Watched.{failures_of};
ghost use Rattle.bser_json.specs.Output.{IsAccounted};
ghost use Rattle.json.specs.Token as tokens;
ghost use Rattle.bser_json.specs.Printed.{Puts};
ghost use Rattle.bser_json.specs.Said.{
  PutsSaid,
  Says,
  SaysBytes,
  SaysKey,
  SaysMarked,
  SaysNumber,
  SaysReal,
  WritesText,
};

use crate::output::{Output, Unwritten};
use crate::printing::{Layout, Printing};
use bser_deserializer::deserializer::MOST_LEVELS;
use bser_document::entries::Entries;
use bser_document::item::{Item, ItemKind};
use bser_document::items::Items;
use bser_document::order::{RowFields, ordered_keys};
use bser_document::rows::Rows;
use bser_format::real::float_of;
use bser_from_json::meaning::Mark;
use bser_views::print_error::PrintError;
use json::Token;
use std::alloc::{AllocError, Global};
use std::collections::BTreeMap;
use std::io::Write;

/// How many containers a value may be inside of. A message that is read nests no deeper: a level is
/// one container, and two where it is a template and one of its rows.
const MOST_AROUND: usize = 2 * MOST_LEVELS;

/// Writes the value as a JSON text in this layout, and gives the writer back. An object has each key
/// once, in rising order, with its last value; a template is an array of objects, and a skipped field
/// null. A byte string in UTF-8 is a string. What JSON cannot say has a form of its own: bytes that are
/// no UTF-8 are `{"$bytes":"61ff"}`, an infinity and a NaN are `{"$real":"7ff8000000000000"}` by their
/// bits, and a key that begins with `$` gets one `$` more. But for spaces and the texts of finite reals
/// that is what `{}` prints.
///
/// The text is written as it is made, that of a long string too. Where the writer fails, also by an
/// interruption or by taking nothing, its error is `Output`, and it is asked no more. Else the error
/// is `Memory`. With an error the writer comes back too, and has taken some of the text.
pub fn write_json<W: Write + Drop>(
    alloc: Global,
    item: Item<'_>,
    layout: Layout,
    out: W,
) -> Result<W, Unwritten<W>>
    ensures text { (u : Tree) → HoldsItem item.entry u
        → IfOk result (λ new. WritesText layout u (W.contents out) (W.contents new)) }
    ensures refused { IfErr result (λ unwritten.
        IsAccounted unwritten.error (failures_of unwritten.out)) }
{
    let mut printing = Printing::new(alloc, layout, Output::new(out));
    let is_put = put_item(alloc, item, MOST_AROUND, &mut printing).is_ok();
    let (out, is_whole) = printing.finish(is_put);
    out.end(is_whole)
}

/// Puts an item that is inside of fewer containers than `MOST_AROUND`, by `room`.
#[cycle(put)]
fn put_item<W: Write>(
    alloc: Global,
    item: Item<'_>,
    room: usize,
    out: &mut Printing<W>,
) -> Result<(), PrintError>
    ensures { (u : Tree) → HoldsItem item.entry u
        → OnOk result (PutsSaid W.contents (Says u) out.old out.new) }
{
    match item.kind() {
        ItemKind::Array | ItemKind::Object => put_container(alloc, item, room, out),
        _ => put_scalar(alloc, item, out),
    }
}

/// Puts an array or an object.
#[cycle(put)]
fn put_container<W: Write>(
    alloc: Global,
    item: Item<'_>,
    room: usize,
    out: &mut Printing<W>,
) -> Result<(), PrintError>
    ensures { (u : Tree) → HoldsItem item.entry u
        → OnOk result (PutsSaid W.contents (Says u) out.old out.new) }
{
    if room == 0 {
        return Err(PrintError::Memory(AllocError));
    }
    if let Some(entries) = item.entries() {
        return put_entries(alloc, entries, room - 1, out);
    }
    if let Some(rows) = item.rows() {
        return put_rows(alloc, rows, room - 1, out);
    }
    match item.items() {
        Some(items) => put_items(alloc, items, room - 1, out),
        None => Err(PrintError::Memory(AllocError)),
    }
}

/// Puts an array of the objects of these rows. The order of their keys is found once.
#[cycle(put)]
fn put_rows<W: Write>(
    alloc: Global,
    rows: Rows<'_>,
    room: usize,
    out: &mut Printing<W>,
) -> Result<(), PrintError>
    ensures { (ks : List (List ℕ)) (ms : List (List Pair)) → HoldsRows rows.entry ks ms
        → OnOk result (PutsSaid W.contents (Says (array (row_objects ms))) out.old out.new) }
{
    let order = ordered_keys(alloc, rows)?;
    let mut fields = RowFields::new(alloc, rows);
    out.token(Token::BeginArray)?;
    for row in rows {
        fields.read(row)?;
        put_row(alloc, &order, &fields, room.saturating_sub(1), out)?;
    }
    out.token(Token::EndArray)
}

/// Puts an object of the fields of a row, in the order of their keys.
#[cycle(put)]
fn put_row<W: Write>(
    alloc: Global,
    order: &[(&str, usize)],
    fields: &RowFields<'_>,
    room: usize,
    out: &mut Printing<W>,
) -> Result<(), PrintError>
    ensures { (m : List Pair) → shown order.entry.now ≡ last_places (keys_of m)
        → HoldsFields fields.entry.now m
        → OnOk result (PutsSaid W.contents (Says (row_object m)) out.old out.new) }
{
    out.token(Token::BeginObject)?;
    for entry in order.iter() {
        let (key, place) = *entry;
        put_key(alloc, key, out)?;
        put_field(alloc, fields.get(place), room, out)?;
    }
    out.token(Token::EndObject)
}

/// Puts a field, and null where there is none.
#[cycle(put)]
#[inline(always)]
fn put_field<W: Write>(
    alloc: Global,
    field: Option<Item<'_>>,
    room: usize,
    out: &mut Printing<W>,
) -> Result<(), PrintError>
    ensures { (u : Tree) → FindsField u field.entry
        → OnOk result (PutsSaid W.contents (Says u) out.old out.new) }
{
    match field {
        Some(item) => put_item(alloc, item, room, out),
        None => out.token(Token::Null),
    }
}

/// Puts an array of these items.
#[cycle(put)]
fn put_items<W: Write>(
    alloc: Global,
    items: Items<'_>,
    room: usize,
    out: &mut Printing<W>,
) -> Result<(), PrintError>
    ensures { (us : trees.Items) → HoldsItems items.entry us
        → OnOk result (PutsSaid W.contents (Says (array us)) out.old out.new) }
{
    out.token(Token::BeginArray)?;
    for item in items {
        put_item(alloc, item, room, out)?;
    }
    out.token(Token::EndArray)
}

/// Puts an object of these entries, in order.
#[cycle(put)]
fn put_entries<W: Write>(
    alloc: Global,
    entries: Entries<'_>,
    room: usize,
    out: &mut Printing<W>,
) -> Result<(), PrintError>
    ensures { (m : List (List ℕ × Tree)) → HoldsEntries entries.entry m
        → OnOk result (PutsSaid W.contents
        (Says (object (entries_of (last_entries m)))) out.old out.new) }
{
    if entries.is_rising() {
        return put_spelled(alloc, entries, room, out);
    }
    let sorted = entries.sorted(alloc)?;
    put_sorted(alloc, &sorted, room, out)
}

/// Puts an object of these entries, whose keys rise.
#[cycle(put)]
fn put_spelled<W: Write>(
    alloc: Global,
    entries: Entries<'_>,
    room: usize,
    out: &mut Printing<W>,
) -> Result<(), PrintError>
    ensures { (m : List (List ℕ × Tree)) → HoldsEntries entries.entry m
        → OnOk result (PutsSaid W.contents (Says (object (entries_of m))) out.old out.new) }
{
    out.token(Token::BeginObject)?;
    for entry in entries {
        put_key(alloc, entry.key, out)?;
        put_item(alloc, entry.value, room, out)?;
    }
    out.token(Token::EndObject)
}

/// Puts an object of these entries.
#[cycle(put)]
fn put_sorted<W: Write>(
    alloc: Global,
    sorted: &BTreeMap<&str, Item<'_>>,
    room: usize,
    out: &mut Printing<W>,
) -> Result<(), PrintError>
    ensures { (es : trees.Entries) → Lists (entries es) sorted.now.entries
        → OnOk result (PutsSaid W.contents (Says (object es)) out.old out.new) }
{
    out.token(Token::BeginObject)?;
    for (key, item) in sorted {
        put_key(alloc, *key, out)?;
        put_item(alloc, *item, room, out)?;
    }
    out.token(Token::EndObject)
}

/// Puts a key, and before one that begins with a dollar sign one more.
#[inline(always)]
fn put_key<W: Write>(alloc: Global, key: &str, out: &mut Printing<W>) -> Result<(), PrintError>
    ensures { OnOk result (PutsSaid W.contents (SaysKey key.now) out.old out.new) }
{
    match key.as_bytes().first().copied() {
        Some(b'$') => put_dollar(alloc, key, out),
        _ => out.token(Token::Key(key)),
    }
}

/// Puts a key behind a dollar sign.
#[cold]
#[inline(never)]
fn put_dollar<W: Write>(alloc: Global, key: &str, out: &mut Printing<W>) -> Result<(), PrintError>
    ensures { OnOk result
        (Puts W.contents (tokens.key (codes "$" ++ key.now) ∷ []) out.old out.new) }
{
    let marked = format!(in alloc; "${key}")?;
    out.token(Token::Key(marked.as_str()))
}

/// Puts a value that is no container.
fn put_scalar<W: Write>(
    alloc: Global,
    item: Item<'_>,
    out: &mut Printing<W>,
) -> Result<(), PrintError>
    ensures { (u : Tree) → HoldsItem item.entry u → IsPlain u
        → OnOk result (PutsSaid W.contents (Says u) out.old out.new) }
{
    if let Some(truth) = item.as_bool() {
        return out.token(Token::Bool(truth));
    }
    if let Some(number) = item.as_i64() {
        return put_integer(number, out);
    }
    if let Some(bits) = item.as_real_bits() {
        return put_real(alloc, bits, out);
    }
    if let Some(text) = item.as_str() {
        return out.string(alloc, text);
    }
    match item.as_bytes() {
        Some(bytes) => put_bytes(alloc, bytes, out),
        None => out.token(Token::Null),
    }
}

/// Puts an integer.
fn put_integer<W: Write>(number: i64, out: &mut Printing<W>) -> Result<(), PrintError>
    ensures { OnOk result (PutsSaid W.contents (Says (integer number)) out.old out.new) }
{
    let mut buffer = itoa::Buffer::new();
    out.token(Token::Number(buffer.format(number)))
}

/// Puts a byte string.
fn put_bytes<W: Write>(alloc: Global, bytes: &[u8], out: &mut Printing<W>) -> Result<(), PrintError>
    ensures { OnOk result (PutsSaid W.contents (SaysBytes bytes.now) out.old out.new) }
{
    match std::str::from_utf8(bytes) {
        Ok(text) => out.string(alloc, text),
        Err(_) => put_marked(alloc, Mark::Bytes, bytes, out),
    }
}

/// Puts a real with these bits.
fn put_real<W: Write>(alloc: Global, bits: u64, out: &mut Printing<W>) -> Result<(), PrintError>
    ensures { OnOk result (PutsSaid W.contents (SaysReal bits) out.old out.new) }
{
    match float_of(bits) {
        Some(number) => put_float(alloc, bits, number, out),
        None => put_marked(alloc, Mark::Real, &bits.to_be_bytes(), out),
    }
}

/// Puts a number with these bits.
fn put_float<W: Write>(
    alloc: Global,
    bits: u64,
    number: f64,
    out: &mut Printing<W>,
) -> Result<(), PrintError>
    ensures { OnOk result (PutsSaid W.contents (SaysNumber bits number (float_is_finite number))
        out.old out.new) }
{
    if number.is_finite() {
        let mut buffer = ryu::Buffer::new();
        return out.token(Token::Number(buffer.format_finite(number)));
    }
    put_marked(alloc, Mark::Real, &bits.to_be_bytes(), out)
}

/// Puts what is marked, with the bytes in hexadecimal.
fn put_marked<W: Write>(
    alloc: Global,
    mark: Mark,
    bytes: &[u8],
    out: &mut Printing<W>,
) -> Result<(), PrintError>
    ensures { OnOk result (PutsSaid W.contents (SaysMarked mark bytes.now) out.old out.new) }
{
    out.token(Token::BeginObject)?;
    out.token(Token::Key(mark.key()))?;
    out.hexadecimal(alloc, bytes)?;
    out.token(Token::EndObject)
}
