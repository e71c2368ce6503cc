//! Printing a document.
ghost use Rattle.std.specs.Prelude.{◌<◌, ℕ, List};
ghost use Rattle.std.specs.Fmt.{DisplaysOnOk};
ghost use Rattle.bser_format.specs.Measures.{depth, items_depth, entries_depth};
ghost use Rattle.bser_format.specs.SomeText.{WritesSomeOnOk};
ghost use Rattle.bser_format.specs.Tree.{Tree, array, object, entries, entries_of};
ghost use Rattle.bser_format.specs.Tree as trees;
ghost use Rattle.bser_value.specs.TreeText.{IsTextOf, IsEntryText, tree_text};
ghost use Rattle.bser_document.specs.DocumentView.{value_of};
ghost use Rattle.bser_document.specs.Holds.{HoldsItem, IsReadAs, ShowsNode, item_value};
ghost use Rattle.bser_document.specs.Pairs.{HoldsEntries};
ghost use Rattle.bser_document.specs.Put.{IsPlain};
ghost use Rattle.bser_document.specs.Sorted.{Lists};
ghost use Rattle.bser_document.specs.Walks.{HoldsItems};

use crate::document::{Document, DocumentNode};
use crate::entries::Entries;
use crate::item::Item;
use crate::items::Items;
use bser_format::bytes::write_bytes;
use bser_format::quoted::{write_key, write_quoted};
use bser_format::real::write_real;
use std::collections::BTreeMap;
use std::fmt;

/// The value that the document holds, as a `Value` of it is printed: each template as the array of
/// its rows, and an object's keys once, in rising order, each with its last value.
///
/// The order of keys that do not rise takes memory, from where the document has its own. Without it
/// printing fails. Printing calls itself once for each level.
impl fmt::Display for Document {
    ghost output = { λ d. tree_text (value_of d) };

    fn fmt<W: fmt::Write>(&self, f: &mut fmt::Formatter<W>) -> fmt::Result
        ensures writes { DisplaysOnOk W.write_str_gives f.old result
            (tree_text (value_of self.now)) f.new }
        ensures text { WritesSomeOnOk W.write_str_gives f.old result
            (IsTextOf (value_of self.now)) f.new }
    {
        show(self.root(), self.nodes.len() + 1, f)
    }
}

/// The value, as its document prints it.
impl fmt::Display for Item<'_> {
    ghost output = { λ i. tree_text (item_value i) };

    fn fmt<W: fmt::Write>(&self, f: &mut fmt::Formatter<W>) -> fmt::Result
        ensures writes { DisplaysOnOk W.write_str_gives f.old result
            (tree_text (item_value self.now)) f.new }
        ensures text { WritesSomeOnOk W.write_str_gives f.old result
            (IsTextOf (item_value self.now)) f.new }
    {
        show(*self, self.document.nodes.len() + 2, f)
    }
}

/// Prints an item that is less than `room` deep.
#[cycle(show)]
fn show<W: fmt::Write>(item: Item<'_>, room: usize, f: &mut fmt::Formatter<W>) -> fmt::Result
    ensures { (u : Tree) → IsReadAs item.entry u → depth u < room
        → WritesSomeOnOk W.write_str_gives f.old result (IsTextOf u) f.new }
{
    match item.node() {
        DocumentNode::Array { len: _, end: _ }
        | DocumentNode::Object { len: _, end: _ }
        | DocumentNode::Template { len: _, end: _ } => show_container(item, room, f),
        node => item.document.show_plain(node, f),
    }
}

/// Prints an array or an object.
#[cycle(show)]
fn show_container<W: fmt::Write>(
    item: Item<'_>,
    room: usize,
    f: &mut fmt::Formatter<W>,
) -> fmt::Result
    ensures { (u : Tree) → HoldsItem item.entry u → depth u < room
        → WritesSomeOnOk W.write_str_gives f.old result (IsTextOf u) f.new }
{
    if room == 0 {
        return Err(fmt::Error);
    }
    if let Some(items) = item.items() {
        return show_items(items, room - 1, f);
    }
    let Some(entries) = item.entries() else {
        return Err(fmt::Error);
    };
    if entries.is_rising() {
        return show_spelled(entries, room - 1, f);
    }
    match entries.sorted(*item.document.nodes.allocator()) {
        Ok(sorted) => show_sorted(&sorted, room - 1, f),
        Err(_) => Err(fmt::Error),
    }
}

/// Prints an array of these items.
#[cycle(show)]
fn show_items<W: fmt::Write>(
    items: Items<'_>,
    room: usize,
    f: &mut fmt::Formatter<W>,
) -> fmt::Result
    ensures { (us : trees.Items) → HoldsItems items.entry us → items_depth us < room
        → WritesSomeOnOk W.write_str_gives f.old result (IsTextOf (array us)) f.new }
{
    f.write_str("[")?;
    let mut before = "";
    for item in items {
        f.write_str(before)?;
        show(item, room, f)?;
        before = ", ";
    }
    f.write_str("]")
}

/// Prints an object of these entries, whose keys rise.
#[cycle(show)]
fn show_spelled<W: fmt::Write>(
    entries: Entries<'_>,
    room: usize,
    f: &mut fmt::Formatter<W>,
) -> fmt::Result
    ensures { (m : List (List ℕ × Tree)) → HoldsEntries entries.entry m
        → entries_depth (entries_of m) < room
        → WritesSomeOnOk W.write_str_gives f.old result (IsTextOf (object (entries_of m))) f.new }
{
    f.write_str("{")?;
    let mut before = "";
    for entry in entries {
        f.write_str(before)?;
        show_entry(entry.key, entry.value, room, f)?;
        before = ", ";
    }
    f.write_str("}")
}

/// Prints an object of these entries.
#[cycle(show)]
fn show_sorted<W: fmt::Write>(
    sorted: &BTreeMap<&str, Item<'_>>,
    room: usize,
    f: &mut fmt::Formatter<W>,
) -> fmt::Result
    ensures { (es : trees.Entries) → Lists (entries es) sorted.now.entries
        → entries_depth es < room
        → WritesSomeOnOk W.write_str_gives f.old result (IsTextOf (object es)) f.new }
{
    f.write_str("{")?;
    let mut before = "";
    for (key, item) in sorted {
        f.write_str(before)?;
        show_entry(*key, *item, room, f)?;
        before = ", ";
    }
    f.write_str("}")
}

/// Prints an entry of an object.
#[cycle(show)]
fn show_entry<W: fmt::Write>(
    key: &str,
    item: Item<'_>,
    room: usize,
    f: &mut fmt::Formatter<W>,
) -> fmt::Result
    ensures { (u : Tree) → HoldsItem item.entry u → depth u < room
        → WritesSomeOnOk W.write_str_gives f.old result (IsEntryText key.now u) f.new }
{
    write_key(key, f)?;
    f.write_str(": ")?;
    show(item, room, f)
}

impl Document {
    /// Prints a value that is no container, given by its node; a skipped field is null.
    fn show_plain<W: fmt::Write>(
        &self,
        node: DocumentNode,
        f: &mut fmt::Formatter<W>,
    ) -> fmt::Result
        ensures { (u : Tree) → ShowsNode u self.now node → IsPlain u
            → WritesSomeOnOk W.write_str_gives f.old result (IsTextOf u) f.new }
    {
        match node {
            DocumentNode::Bool(truth) => write!(f, "{truth}"),
            DocumentNode::Int(number) => write!(f, "{number}"),
            DocumentNode::Real(bits) => write_real(bits, f),
            DocumentNode::Bytes { len, at } => write_bytes(self.string(len, at), f),
            DocumentNode::Text { len, at } => write_quoted(self.text(len, at), f),
            _ => f.write_str("null"),
        }
    }
}
