//! Templates that are being read.
ghost use Rattle.std.specs.Prelude.{◌≡◌, ◌≤◌, [], length, IfOk, OnOk};
ghost use Rattle.bser_value.specs.Shows.{ShowsKeys, PutsField, PutsRow, PutsInRow, NamesField, BuildsRows};
ghost use Rattle.bser_value.specs.ValueView.{tree_of};

use crate::gathered::Gathered;
use crate::places::{put_field, put_place, take_fields};
use crate::value::Value;
use std::alloc::{AllocError, Global};
use std::collections::BTreeMap;

/// The keys of a template, and what of its rows was read.
///
/// A row becomes an object when the next one begins. The last one needs no copy of the keys.
#[derive(Drop)]
pub struct Table {
    /// Each key, with the last place at which it occurs.
    places: BTreeMap<String, Value>,
    /// How many keys there are.
    count: usize,
    /// The rows that were read, but for one whose fields are all there.
    rows: Gathered,
    /// The fields of that row, or of the next one as far as its next place. Those behind it are of
    /// no row.
    fields: Vec<Value>,
    /// The place of the field that comes next, or the count of keys behind a row's last field.
    place: usize,
}

impl Table {
    /// Begins a template, of which nothing was read.
    pub fn new(alloc: Global) -> Self
        ensures { ShowsKeys result [] }
    {
        Table {
            places: BTreeMap::new(alloc),
            count: 0,
            rows: Gathered::new(alloc),
            fields: Vec::new(alloc),
            place: 0,
        }
    }

    /// Puts in the next field of a row.
    #[inline(always)]
    pub fn put(&mut self, value: Value) -> Result<(), AllocError>
        ensures { OnOk result (PutsInRow (tree_of value) self.old self.new) }
    {
        if self.place == self.count {
            return self.put_first(value);
        }
        self.put_next(value)
    }

    /// Puts in the row whose fields were all read, and the first field of the next one.
    #[inline(never)]
    fn put_first(&mut self, value: Value) -> Result<(), AllocError>
        requires { self.old.place ≡ self.old.count }
        ensures { OnOk result (PutsInRow (tree_of value) self.old self.new) }
    {
        self.put_row()?;
        self.put_next(value)
    }

    /// Puts a value at the next place of a row.
    #[inline(always)]
    fn put_next(&mut self, value: Value) -> Result<(), AllocError>
        ensures { OnOk result (PutsField value self.old self.new) }
    {
        let place = self.place;
        if place < self.fields.len() {
            put_field(&mut self.fields[place], value);
            self.place = place + 1;
            return Ok(());
        }
        self.push_field(value)
    }

    /// Puts a value behind the fields of a row.
    #[cold]
    #[inline(never)]
    fn push_field(&mut self, value: Value) -> Result<(), AllocError>
        requires { length self.old.fields.items ≤ self.old.place }
        ensures { OnOk result (PutsField value self.old self.new) }
    {
        self.fields.push(value)?;
        self.place = self.fields.len();
        Ok(())
    }

    /// Puts in the row whose fields were all read.
    fn put_row(&mut self) -> Result<(), AllocError>
        ensures { OnOk result (PutsRow self.old self.new) }
    {
        self.fields.truncate(self.count);
        let mut entries = self.places.clone()?;
        take_fields(&mut entries, &mut self.fields);
        self.place = 0;
        self.rows.push(Value::Object(entries))
    }

    /// Takes a key.
    pub fn put_key(&mut self, alloc: Global, key: &str) -> Result<(), AllocError>
        ensures { OnOk result (NamesField key.now self.old self.new) }
    {
        let place = self.count;
        let Some(count) = place.checked_add(1) else {
            return Err(AllocError);
        };
        put_place(alloc, &mut self.places, key, place)?;
        self.count = count;
        Ok(())
    }

    /// Returns the rows that were read.
    pub fn into_rows(self) -> Result<Vec<Value>, AllocError>
        ensures { IfOk result (λ rows. BuildsRows self rows.items) }
    {
        let Table {
            mut places,
            count,
            mut rows,
            mut fields,
            place,
        } = self;
        if place == 0 || place < count {
            return rows.into_list();
        }
        fields.truncate(count);
        take_fields(&mut places, &mut fields);
        rows.push(Value::Object(places))?;
        rows.into_list()
    }
}
