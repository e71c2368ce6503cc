//! The keys of a template in rising byte order, and the fields of a row by their places.
ghost use Rattle.std.specs.Prelude.{◌≡◌, ℕ, List, [], IfOk, OnOk};
ghost use Rattle.bser_document.specs.Order.{last_places, shown, value_at, HoldsFields, FindsField};
ghost use Rattle.bser_document.specs.Rows.{HoldsRows, HoldsRow, Pair};

use crate::document::Document;
use crate::item::Item;
use crate::rows::{Row, Rows};
use std::alloc::{AllocError, Global};
use std::collections::BTreeMap;

/// The places at which the fields of a row begin. The list is used again for the next row.
#[derive(Drop)]
pub struct RowFields<'d> {
    document: &'d Document,
    places: Vec<usize>,
}

impl<'d> RowFields<'d> {
    /// Begins with none of these rows read, and so without fields.
    pub fn new(alloc: Global, rows: Rows<'d>) -> Self
        ensures { HoldsFields result [] }
    {
        RowFields {
            document: rows.document,
            places: Vec::new(alloc),
        }
    }

    /// Finds the fields of a row, in place of those of the row before. The error is that there is
    /// no memory for their places.
    pub fn read(&mut self, row: Row<'d>) -> Result<(), AllocError>
        ensures { (ks : List (List ℕ)) (m : List Pair) → HoldsRow row.entry ks m
            → OnOk result (HoldsFields self.new m) }
    {
        self.document = row.document;
        self.places.clear();
        let mut at = row.at;
        for _ in 0..row.len {
            self.places.push(at)?;
            at = row.document.behind(at);
        }
        Ok(())
    }

    /// Returns the field at this place. `None` where there is none.
    #[inline(always)]
    pub fn get(&self, place: usize) -> Option<Item<'d>>
        ensures { (m : List Pair) → HoldsFields self.now m
            → FindsField (value_at m place) result }
    {
        match self.places.get(place) {
            Some(at) => Some(Item {
                document: self.document,
                at: *at,
                keys: None,
            }),
            None => None,
        }
    }
}

/// Returns the keys of a template in rising byte order, each once, with the last of its places. The
/// error is that there is no memory for them.
pub fn ordered_keys<'d>(alloc: Global, rows: Rows<'d>) -> Result<Vec<(&'d str, usize)>, AllocError>
    ensures { (ks : List (List ℕ)) (ms : List (List Pair)) → HoldsRows rows.entry ks ms
        → IfOk result (λ order. shown order.items ≡ last_places ks) }
{
    let places = rows.places(alloc)?;
    let mut order = Vec::with_capacity(alloc, places.len())?;
    for (key, place) in &places {
        order.push((*key, *place))?;
    }
    Ok(order)
}

impl<'d> Rows<'d> {
    /// The keys in rising byte order, each once, with the last of its places.
    fn places(self, alloc: Global) -> Result<BTreeMap<&'d str, usize>, AllocError>
        ensures { (ks : List (List ℕ)) (ms : List (List Pair)) → HoldsRows self.entry ks ms
            → IfOk result (λ places. shown places.entries ≡ last_places ks) }
    {
        let mut places = BTreeMap::new(alloc);
        for place in 0..self.keys.len {
            let at = self.document.place(self.keys.at, place);
            places.insert(self.document.key(at), place)?;
        }
        Ok(places)
    }
}
