//! Containers that are being read.
ghost use Rattle.std.specs.Prelude.{[], None, IfOk, OnOk, string_bytes};
ghost use Rattle.bser_value.specs.Made.{in_array, in_object, in_keys};
ghost use Rattle.bser_value.specs.Places.{PutsEntry};
ghost use Rattle.bser_value.specs.Shows.{ShowsOpen, PutsNext, NamesNext, Builds};
ghost use Rattle.bser_value.specs.ValueView.{tree_of};

use crate::gathered::Gathered;
use crate::table::Table;
use crate::value::Value;
use std::alloc::{AllocError, Global};
use std::collections::BTreeMap;

/// What is being read, and what of it was read.
#[derive(Drop)]
pub enum Building {
    /// The value as a whole.
    Whole {
        /// The value that was read.
        value: Option<Value>,
    },
    /// An array.
    Array {
        /// The items that were read.
        items: Gathered,
    },
    /// An object.
    Object {
        /// The entries that were read.
        entries: BTreeMap<String, Value>,
        /// The key whose value comes next.
        key: Option<String>,
    },
    /// A template.
    Template {
        /// Its keys and rows.
        table: Table,
    },
}

impl Building {
    /// Begins an array, of which nothing was read.
    pub fn array(alloc: Global) -> Self
        ensures { ShowsOpen result (in_array []) }
    {
        Building::Array {
            items: Gathered::new(alloc),
        }
    }

    /// Begins an object, of which nothing was read.
    pub fn object(alloc: Global) -> Self
        ensures { ShowsOpen result (in_object [] None) }
    {
        Building::Object {
            entries: BTreeMap::new(alloc),
            key: None,
        }
    }

    /// Begins a template, of which nothing was read.
    pub fn template(alloc: Global) -> Self
        ensures { ShowsOpen result (in_keys []) }
    {
        Building::Template {
            table: Table::new(alloc),
        }
    }

    /// Puts in the value that comes next.
    #[inline(always)]
    pub fn put(&mut self, value: Value) -> Result<(), AllocError>
        ensures { OnOk result (PutsNext (tree_of value) self.old self.new) }
    {
        if let Building::Template { table } = self {
            return table.put(value);
        }
        self.put_other(value)
    }

    /// Puts in the value that comes next, where it is no field of a row as a rule.
    #[inline(never)]
    fn put_other(&mut self, value: Value) -> Result<(), AllocError>
        ensures { OnOk result (PutsNext (tree_of value) self.old self.new) }
    {
        match self {
            Building::Whole { value: whole } => {
                *whole = Some(value);
                Ok(())
            }
            Building::Array { items } => items.push(value),
            Building::Object { entries, key } => match key.take() {
                Some(name) => put_entry(entries, name, value),
                None => Ok(()),
            },
            Building::Template { table } => table.put(value),
        }
    }

    /// Takes a key.
    pub fn put_key(&mut self, alloc: Global, text: &str) -> Result<(), AllocError>
        ensures { OnOk result (NamesNext text.now self.old self.new) }
    {
        match self {
            Building::Object { entries: _, key } => {
                *key = Some(String::from_str(alloc, text)?);
                Ok(())
            }
            Building::Template { table } => table.put_key(alloc, text),
            Building::Whole { value: _ } | Building::Array { items: _ } => Ok(()),
        }
    }

    /// Returns the value of a container of which all was read.
    pub fn into_value(self) -> Result<Option<Value>, AllocError>
        ensures { IfOk result (λ value. Builds self value) }
    {
        match self {
            Building::Whole { value } => Ok(value),
            Building::Array { items } => Ok(Some(Value::Array(items.into_list()?))),
            Building::Object { entries, key: _ } => Ok(Some(Value::Object(entries))),
            Building::Template { table } => Ok(Some(Value::Array(table.into_rows()?))),
        }
    }
}

/// Puts in an entry. The last of equal keys stays.
pub(crate) fn put_entry(
    entries: &mut BTreeMap<String, Value>,
    key: String,
    value: Value,
) -> Result<(), AllocError>
    ensures { OnOk result (PutsEntry (string_bytes key) (tree_of value) entries.old entries.new) }
{
    match entries.insert(key, value) {
        Ok(_) => Ok(()),
        Err(_) => Err(AllocError),
    }
}
