//! Messages as lists of calls and their answers.
use crate::tests::readers::source_of;
use crate::tests::texts::is_printed;
use bser_deserializer::container::Containers;
use bser_deserializer::cursor::Cursor;
use bser_deserializer::deserializer::{Deserializer, Due};
use bser_deserializer::frames::{MapHead, SeqHead};
use bser_source::read::DeRead;
use bser_source::reference::LendsText;
use bser_source::slice_read::SliceRead;
use bser_source::text::as_text;
use std::alloc::Global;
use std::process::Abort;

/// A call, or what is made due.
#[derive(Clone, Copy)]
pub enum Call {
    /// This is made due, of names the first. It has no answer.
    Await(Due),
    /// The name of this place is made due. It has no answer.
    AwaitName(usize),
    /// The key of an object's entry, after which its value is due.
    Key,
    /// The key of a row's field, by its place, after which the field is due.
    Name(usize),
    /// The kind of what is due.
    Node,
    /// Whether a null is due.
    IsNone,
    Bool,
    Integer,
    /// The bits of a real.
    Real,
    /// A null.
    Unit,
    Bytes,
    Text,
    /// Bytes that are copied.
    ByteString,
    /// A text that is copied.
    String,
    /// An array or a template is opened: how many items it has, and whether they are rows.
    Items,
    /// It is closed. It has no answer.
    ItemsEnd,
    /// Entries are opened: how many an object has, or the place of a row's first field, and whether
    /// they are a row's.
    Pairs,
    /// They are closed. It has no answer.
    PairsEnd,
    /// The reason of the last refusal.
    Reason,
    Levels,
    Capabilities,
    /// What is due.
    Due,
    /// Whether a call has failed.
    IsFailed,
    End,
}

/// A call, and how its answer is printed.
pub type Step = (Call, &'static str);

/// The answer of a call that is refused, and keeps the reason.
pub const REFUSED: &str = "Err(Refused)";

/// What is open, and what is open outside of it.
#[derive(Drop)]
struct OpenHeads {
    items: Option<SeqHead>,
    outer_items: Option<SeqHead>,
    pairs: Option<MapHead>,
    outer_pairs: Option<MapHead>,
}

fn are_items<R: DeRead>(open: &mut OpenHeads, from: &mut Deserializer<R>, text: &str) -> bool {
    open.outer_items = open.items;
    open.items = from.open_items().ok();
    match open.items {
        Some(head) => is_printed((head.remaining, head.rows), text),
        None => text == REFUSED,
    }
}

fn are_pairs<R: DeRead>(open: &mut OpenHeads, from: &mut Deserializer<R>, text: &str) -> bool {
    open.outer_pairs = open.pairs;
    open.pairs = from.open_pairs().ok();
    match open.pairs {
        Some(head) => is_printed((head.at, head.row), text),
        None => text == REFUSED,
    }
}

/// Closes the items that are open, or else the entries, and answers whether there are some.
fn is_closed<R: DeRead>(is_items: bool, open: &mut OpenHeads, from: &mut Deserializer<R>) -> bool {
    if is_items {
        let Some(head) = open.items else {
            return false;
        };
        open.items = open.outer_items;
        from.close_items(head);
    } else {
        let Some(head) = open.pairs else {
            return false;
        };
        open.pairs = open.outer_pairs;
        from.close_pairs(head);
    }
    true
}

/// Bytes that are a text are printed as a text.
fn are_bytes<R: DeRead>(alloc: Global, from: &mut Deserializer<R>, text: &str) -> bool {
    let mut scratch = Vec::new(alloc);
    match from.read_bytes(&mut scratch) {
        Ok(read) => match as_text(read.get_ref()) {
            Some(read) => is_printed(read, text),
            None => is_printed(read.get_ref(), text),
        },
        Err(_) => text == REFUSED,
    }
}

fn is_text<R: DeRead>(alloc: Global, from: &mut Deserializer<R>, text: &str) -> bool
where
    R::Lent: LendsText,
{
    let mut scratch = Vec::new(alloc);
    match from.read_text(&mut scratch) {
        Ok(read) => is_printed(read.get_ref(), text),
        Err(_) => text == REFUSED,
    }
}

/// Whether the key of an object's entry is read so. Its value is due then.
fn is_key<R: DeRead>(alloc: Global, from: &mut Deserializer<R>, text: &str) -> bool {
    from.await_key();
    let is_key = is_printed(from.node(), "Ok(Key)") && are_bytes(alloc, from, text);
    from.await_node();
    is_key
}

/// Whether the key of a row's field is read so. The field is due then.
fn is_name<R: DeRead>(alloc: Global, place: usize, from: &mut Deserializer<R>, text: &str) -> bool
where
    R::Lent: LendsText,
{
    from.await_name(place);
    let is_name = is_printed(from.node(), "Ok(Key)") && is_text(alloc, from, text);
    from.await_field();
    is_name
}

fn make_due<R: DeRead>(due: Due, from: &mut Deserializer<R>) {
    match due {
        Due::Nothing => from.await_nothing(),
        Due::Node => from.await_node(),
        Due::Key => from.await_key(),
        Due::Field => from.await_field(),
        Due::Name => from.await_name(0),
        Due::Row => from.await_row(),
    }
}

/// Whether the deserializer's state is so. What is made due has no answer.
fn is_state<R: DeRead>((call, text): Step, from: &mut Deserializer<R>) -> bool {
    match call {
        Call::Await(due) => make_due(due, from),
        Call::AwaitName(place) => from.await_name(place),
        Call::Reason => return is_printed(from.take_refusal(), text),
        Call::Levels => return is_printed(from.levels(), text),
        Call::Capabilities => return is_printed(from.capabilities(), text),
        Call::Due => return is_printed(from.due(), text),
        Call::IsFailed => return is_printed(from.is_failed(), text),
        _ => return is_printed(from.end(), text),
    }
    true
}

/// Whether the value is read so, or else whether the state is so.
fn is_read<R: DeRead>(alloc: Global, (call, text): Step, from: &mut Deserializer<R>) -> bool
where
    R::Lent: LendsText,
{
    match call {
        Call::Node => is_printed(from.node(), text),
        Call::IsNone => is_printed(from.read_none(), text),
        Call::Bool => is_printed(from.read_bool(), text),
        Call::Integer => is_printed(from.read_i64(), text),
        Call::Real => is_printed(from.read_real_bits(), text),
        Call::Unit => is_printed(from.read_unit(), text),
        Call::Bytes => are_bytes(alloc, from, text),
        Call::Text => is_text(alloc, from, text),
        Call::ByteString => is_printed(from.read_byte_string(alloc), text),
        Call::String => is_printed(from.read_string(alloc), text),
        _ => is_state((call, text), from),
    }
}

/// How many of the steps are answered so, up to the first that is not.
pub fn steps_taken<R: DeRead>(alloc: Global, steps: &[Step], from: &mut Deserializer<R>) -> usize
where
    R::Lent: LendsText,
{
    let mut open = OpenHeads {
        items: None,
        outer_items: None,
        pairs: None,
        outer_pairs: None,
    };
    for at in 0..steps.len() {
        let (call, text) = steps[at];
        let is_so = match call {
            Call::Items => are_items(&mut open, from, text),
            Call::ItemsEnd => is_closed(true, &mut open, from),
            Call::Pairs => are_pairs(&mut open, from, text),
            Call::PairsEnd => is_closed(false, &mut open, from),
            Call::Key => is_key(alloc, from, text),
            Call::Name(place) => is_name(alloc, place, from, text),
            _ => is_read(alloc, steps[at], from),
        };
        if !is_so {
            return at;
        }
    }
    steps.len()
}

/// Checks that the source's message is answered so step by step, and shows the first step that is
/// not.
fn check_source<R: DeRead + Drop>(rt: &impl Abort, alloc: Global, steps: &[Step], read: R)
where
    R::Lent: LendsText,
{
    let mut from = Deserializer::new(alloc, read).expect(rt, "the head is whole");
    let taken = steps_taken(alloc, steps, &mut from);
    assert_eq!(rt; steps.get(taken).map(|step| step.1), None);
}

/// Checks that the message is answered so in a slice, and from a reader that gives one byte a call.
pub fn check_steps(rt: &impl Abort, alloc: Global, message: &[u8], steps: &[Step]) {
    check_source(rt, alloc, steps, SliceRead::new(message));
    check_source(rt, alloc, steps, source_of(message, 1, usize::MAX));
}
