//! The items of an array, one after the other.
ghost use Rattle.std.specs.Prelude.{◌≡◌, ◌≤◌, ◌<◌, ◌+◌, ◌^◌, ℕ, length, Option, option_map};
ghost use Rattle.bser_format.specs.Tree.{Tree, Fields, fields};
ghost use Rattle.bser_format.specs.Tree as trees;
ghost use Rattle.bser_value.specs.Contents.{as_array};
ghost use Rattle.bser_document.specs.DocumentView.{end_of};
ghost use Rattle.bser_document.specs.declared.document.DocumentNode.TheVariants as nodes;
ghost use Rattle.bser_document.specs.Spans.{FieldLies, FieldsLie, fields_ends};
ghost use Rattle.bser_document.specs.Holds.{HasTemplateNode, HoldsItem, PartLies, Part, part_ends, field_ends, stepped};
ghost use Rattle.bser_document.specs.Parts.{AreRowsIfKeyed};

use crate::document::{Document, DocumentNode};
use crate::item::{Item, Keys};

/// The items of an array that are still to come, or the rows of a template.
#[derive(Clone, Copy)]
pub struct Items<'d> {
    pub(crate) document: &'d Document,
    pub(crate) at: usize,
    pub(crate) left: usize,
    // the keys of the rows, and none for an array's items
    pub(crate) keys: Option<Keys>,
    ghost rows: { ∥ AreRowsIfKeyed document.now keys at left ∥₁ },
}

impl<'d> Iterator for Items<'d> {
    ghost use Rattle.std.specs.Iterator.{at_most};
    ghost use Rattle.bser_document.specs.Walks.{StepsOverItems};

    type Item = Item<'d>;

    ghost next_gives = { StepsOverItems };

    ghost remaining = { λ s. at_most s.left };

    fn next(&mut self) -> Option<Item<'d>> {
        if self.left == 0 {
            return None;
        }
        self.left -= 1;
        let item = Item {
            document: self.document,
            at: self.at,
            keys: self.keys,
        };
        self.at = item.behind();
        Some(item)
    }
}

impl<'d> Items<'d> {
    ghost use Rattle.bser_document.specs.Walks.{HoldsItems, length_of};

    /// Returns how many items are still to come.
    pub fn len(&self) -> usize
        ensures { (us : trees.Items) → HoldsItems self.now us → result ≡ length_of us }
    {
        self.left
    }
}

impl<'d> Item<'d> {
    ghost use Rattle.bser_document.specs.Walks.{FindsItems, HasKeys, RowsBegin, length_of};

    /// Returns the items of an array, of a template its rows, and `None` for all else.
    pub fn items(self) -> Option<Items<'d>>
        ensures { (u : Tree) → HoldsItem self.entry u → FindsItems (as_array u) result }
    {
        match self.node() {
            DocumentNode::Array { len, end: _ } => Some(Items {
                document: self.document,
                at: self.document.place(self.at, 1),
                left: len,
                keys: None,
            }),
            DocumentNode::Template { len, end: _ } => Some(self.all_rows(len)),
            _ => None,
        }
    }

    /// Returns how many items an array has, of a template how many rows, and `None` for all else.
    pub fn len(self) -> Option<usize>
        ensures { (u : Tree) → HoldsItem self.entry u
            → result ≡ option_map length_of (as_array u) }
    {
        match self.items() {
            Some(items) => Some(items.len()),
            None => None,
        }
    }

    /// The rows of a template of so many keys.
    pub(crate) fn all_rows(self, len: usize) -> Items<'d>
        requires { HasTemplateNode self len }
        ensures begin { RowsBegin self.entry len result }
        ensures keys { HasKeys result }
    {
        let at = self.document.place(self.at, 1);
        let head = self.document.place(at, len);
        Items {
            document: self.document,
            at: self.document.place(head, 1),
            left: count_at(self.document.node(head)),
            keys: Some(Keys { at, len }),
        }
    }

    /// The place behind the value.
    pub(crate) fn behind(self) -> usize
        ensures { (p : Part) → PartLies self.entry.document.now self.entry.keys self.entry.at p
            → result ≡ self.entry.at + length (part_ends p self.entry.at) }
    {
        match self.keys {
            Some(keys) => self.document.behind_all(self.at, keys.len),
            None => self.document.behind(self.at),
        }
    }
}

impl Document {
    /// The place so many nodes behind this one.
    #[inline(always)]
    pub(crate) fn place(&self, at: usize, count: usize) -> usize
        ensures { at + count ≤ length self.now.nodes.items → result ≡ at + count }
    {
        let _len = self.nodes.len();
        at.saturating_add(count)
    }

    /// The place behind a value, or behind a skipped field.
    #[inline(always)]
    pub(crate) fn behind(&self, at: usize) -> usize
        ensures { (p : Option Tree) → FieldLies self.now p at
            → result ≡ at + length (field_ends p at) }
    {
        match self.nodes.get(at) {
            None => at,
            Some(
                DocumentNode::Array { len: _, end }
                | DocumentNode::Object { len: _, end }
                | DocumentNode::Template { len: _, end },
            ) => *end,
            Some(_) => at.saturating_add(1),
        }
    }

    /// The place behind so many fields of a row.
    pub(crate) fn behind_all(&self, at: usize, count: usize) -> usize
        ensures { (fs : Fields) → FieldsLie self.now fs at → length (fields fs) ≡ count
            → result ≡ at + length (fields_ends fs at) }
    {
        let mut behind = at;
        for _ in 0..count {
            behind = self.behind(behind);
        }
        behind
    }
}

/// How many rows a node announces.
#[inline(always)]
fn count_at(node: DocumentNode) -> usize
    ensures { (n : ℕ) → node ≡ nodes.Rows n → result ≡ n }
{
    match node {
        DocumentNode::Rows { len } => len,
        _ => 0,
    }
}
