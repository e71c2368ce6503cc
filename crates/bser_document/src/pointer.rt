//! The value that a JSON pointer leads to, and an item by its place.
ghost use Rattle.std.specs.Prelude.{◌≡◌, ℕ, List, None, Some, is_some, option_and_then};
ghost use Rattle.bser_format.specs.SameTree.{same_bytes};
ghost use Rattle.bser_format.specs.Tree.{Tree};
ghost use Rattle.bser_document.specs.Holds.{HoldsItem};
ghost use Rattle.bser_document.specs.Pairs.{HoldsEntries, FindsItem, last_from};
ghost use Rattle.bser_document.specs.Pointer.{
  pointed,
  descendant,
  between_slashes,
  child,
  has_only_escapes,
  item_there,
  token_text,
  tokens,
  BeginsText,
  is_plain,
  ReadsIndex,
};

use crate::entries::{Entries, pick};
use crate::item::Item;

impl<'d> Item<'d> {
    /// Returns the value that a JSON pointer (RFC 6901) leads to from here. The empty path leads to
    /// the value itself. Any other has a token behind each `/`: in an object a key, of equal keys
    /// the last, and in an array an index, in decimal digits with no zero before others. In a key
    /// `~1` stands for `/`, and `~0` for `~`. `None` where no value is there, and where the path
    /// [is no pointer](is_pointer).
    ///
    /// It takes no memory. An index is found by walking over the items before it.
    pub fn pointer(self, path: &str) -> Option<Item<'d>>
        ensures { (u : Tree) → HoldsItem self.entry u → FindsItem (pointed path.now u) result }
    {
        if !has_only_escapes(path.as_bytes()) {
            return None;
        }
        match path.strip_prefix('/') {
            Some(tokens) => self.descendant(tokens),
            None if path.is_empty() => Some(self),
            None => None,
        }
    }

    /// Returns the item at this place of an array, of a template the row. `None` where the array
    /// has fewer items, and for every value that is no array. The items before it are walked over.
    pub fn at(self, index: usize) -> Option<Item<'d>>
        ensures { (u : Tree) → HoldsItem self.entry u → FindsItem (item_there index u) result }
    {
        let mut rest = self.items()?;
        for _ in 0..index {
            rest.next()?;
        }
        rest.next()
    }

    /// The value that tokens lead to, which slashes separate.
    fn descendant(self, tokens: &str) -> Option<Item<'d>>
        ensures { (u : Tree) → HoldsItem self.entry u
            → FindsItem (descendant (between_slashes tokens.now) u) result }
    {
        let mut rest = tokens;
        let mut item = self;
        while let Some((token, behind)) = rest.split_once('/') {
            item = item.child(token)?;
            rest = behind;
        }
        item.child(rest)
    }

    /// The value that one token leads to.
    fn child(self, token: &str) -> Option<Item<'d>>
        ensures { (u : Tree) → HoldsItem self.entry u → FindsItem (child token.now u) result }
    {
        match self.entries() {
            Some(entries) => entries.last_named(token),
            None => self.at(index_of(token, self.len()?)?),
        }
    }
}

impl<'d> Entries<'d> {
    /// The value of the last entry whose key is the token's text.
    fn last_named(self, token: &str) -> Option<Item<'d>>
        ensures { (m : List (List ℕ × Tree)) → HoldsEntries self.entry m
            → FindsItem (last_from None (token_text token.now) m) result }
    {
        let mut rest = self;
        let mut found = None;
        for _ in 0..self.len() {
            match rest.next() {
                Some(entry) => {
                    let is_named = is_text_of(token.as_bytes(), entry.key.as_bytes());
                    found = pick(found, entry, is_named);
                }
                None => return found,
            }
        }
        found
    }
}

/// Whether a text is a JSON pointer (RFC 6901): empty, or with `/` first, and with `0` or `1` behind
/// each `~`.
pub fn is_pointer(text: &str) -> bool
    ensures { result ≡ is_some (tokens text.now) }
{
    (text.is_empty() || text.starts_with('/')) && has_only_escapes(text.as_bytes())
}

/// Whether `0` or `1` is behind each `~`.
fn has_only_escapes(text: &[u8]) -> bool
    ensures { result ≡ has_only_escapes text.now }
{
    let mut rest = text;
    while let [first, behind @ ..] = rest {
        if *first == b'~' && !matches!(behind, [b'0' | b'1', ..]) {
            return false;
        }
        rest = behind;
    }
    true
}

/// Whether the text of a token is this key.
fn is_text_of(token: &[u8], key: &[u8]) -> bool
    ensures { result ≡ same_bytes (token_text token.now) key.now }
{
    let mut rest = token;
    for byte in key {
        let Some((first, behind)) = unescape(rest) else {
            return false;
        };
        if first != *byte {
            return false;
        }
        rest = behind;
    }
    unescape(rest).is_none()
}

/// The first byte of a token's text, and what of the token is behind it.
fn unescape(token: &[u8]) -> Option<(u8, &[u8])>
    ensures { BeginsText token.now result }
{
    match token {
        [] => None,
        [b'~', b'0', rest @ ..] => Some((b'~', rest)),
        [b'~', b'1', rest @ ..] => Some((b'/', rest)),
        [first, rest @ ..] => Some((*first, rest)),
    }
}

/// The index below `len` that a token writes.
fn index_of(token: &str, len: usize) -> Option<usize>
    ensures { ReadsIndex token.now len result }
{
    if !is_plain(token.as_bytes()) {
        return None;
    }
    match token.parse::<usize>() {
        Ok(index) => { if index < len { Some(index) } else { None } }
        Err(_) => None,
    }
}

/// Whether no plus comes first, and no zero before other bytes.
fn is_plain(text: &[u8]) -> bool
    ensures { result ≡ is_plain text.now }
{
    match text {
        [b'+', ..] => false,
        [b'0', _, ..] => false,
        _ => true,
    }
}
