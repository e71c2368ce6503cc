//! Values of the types that are read.
use crate::random::any::{Extent, Maker};
use crate::random::samples::INTEGERS;
use anyhow::Result;
use serde_bser::header::{
    BSER_ARRAY, BSER_BYTESTRING, BSER_NULL, BSER_OBJECT, BSER_SKIP, BSER_TEMPLATE,
};

/// What a field holds.
#[derive(Clone, Copy)]
enum Content {
    Text,
    Int32,
    Nat32,
    Int64,
    Variant,
    Any,
}

/// A field of a row: its name, what it holds, and whether it may be absent.
#[derive(Clone, Copy)]
pub struct Field {
    name: &'static str,
    content: Content,
    is_optional: bool,
}

/// The fields of `TemplateRow`.
pub const ROW: [Field; 3] = [
    Field {
        name: "abc",
        content: Content::Int32,
        is_optional: false,
    },
    Field {
        name: "def",
        content: Content::Text,
        is_optional: true,
    },
    Field {
        name: "ghi",
        content: Content::Int64,
        is_optional: true,
    },
];

/// The fields of `FileInfo`.
pub const FILE: [Field; 2] = [
    Field {
        name: "name",
        content: Content::Text,
        is_optional: false,
    },
    Field {
        name: "size",
        content: Content::Nat32,
        is_optional: false,
    },
];

/// The field of `EnumRow`.
pub const VARIANT_ROW: [Field; 1] = [Field {
    name: "abc",
    content: Content::Variant,
    is_optional: false,
}];

/// A field that no type has.
const UNKNOWN: Field = Field {
    name: "other",
    content: Content::Any,
    is_optional: false,
};

impl Maker {
    /// Puts the object of the files.
    pub fn put_files(&mut self) -> Result<()> {
        self.put_counted(BSER_OBJECT, 2)?;
        let is_first = self.drawing.is_once_in(2);
        if is_first {
            self.put_entry(UNKNOWN)?;
        }
        self.put_key("files")?;
        self.put_rows(&FILE)?;
        if is_first {
            return Ok(());
        }
        self.put_entry(UNKNOWN)
    }

    /// Puts a few rows of these fields, as an array or as a template.
    pub fn put_rows(&mut self, fields: &[Field]) -> Result<()> {
        let count = self.drawing.below(4);
        if self.drawing.is_once_in(2) {
            return self.put_table(fields, count);
        }
        self.put_counted(BSER_ARRAY, count)?;
        for _ in 0..count {
            self.put_object(fields)?;
        }
        Ok(())
    }

    /// Puts a template of so many rows.
    fn put_table(&mut self, fields: &[Field], rows: usize) -> Result<()> {
        let fields = self.fields_of(fields)?;
        self.body.put(&[BSER_TEMPLATE])?;
        self.put_counted(BSER_ARRAY, fields.len())?;
        for field in &fields {
            self.put_key(field.name)?;
        }
        self.put_count(rows)?;
        for _ in 0..rows {
            for field in &fields {
                self.put_field(*field, BSER_SKIP)?;
            }
        }
        Ok(())
    }

    /// Puts an object.
    fn put_object(&mut self, fields: &[Field]) -> Result<()> {
        let fields = self.fields_of(fields)?;
        self.put_counted(BSER_OBJECT, fields.len())?;
        for field in &fields {
            self.put_entry(*field)?;
        }
        Ok(())
    }

    /// The fields that a row has: those that it has to have, and some of the others, in any order.
    fn fields_of(&mut self, fields: &[Field]) -> Result<Vec<Field>> {
        let mut had = Vec::new(self.alloc);
        for field in fields {
            if !field.is_optional || self.drawing.is_once_in(2) {
                had.push(*field)?;
            }
        }
        if self.drawing.is_once_in(3) {
            had.push(UNKNOWN)?;
        }
        self.drawing.shuffle(&mut had);
        Ok(had)
    }

    /// Puts an entry of an object.
    fn put_entry(&mut self, field: Field) -> Result<()> {
        self.put_key(field.name)?;
        self.put_field(field, BSER_NULL)
    }

    /// Puts a field's value. This is put where it is absent.
    fn put_field(&mut self, field: Field, absent: u8) -> Result<()> {
        if field.is_optional && self.drawing.is_once_in(4) {
            return self.body.put(&[absent]);
        }
        match field.content {
            Content::Text => self.put_any_text(),
            Content::Int32 => self.put_integer_within(i64::from(i32::MIN), i64::from(i32::MAX)),
            Content::Nat32 => self.put_integer_within(0, i64::from(u32::MAX)),
            Content::Int64 => self.put_integer_within(i64::MIN, i64::MAX),
            Content::Variant => self.put_variant(),
            Content::Any => self.put_any(Extent::Wide(3)),
        }
    }

    /// Puts an integer from `least` to `most`.
    fn put_integer_within(&mut self, least: i64, most: i64) -> Result<()> {
        let number = self.drawing.choose(&INTEGERS, 0);
        self.put_integer(number.max(least).min(most))
    }

    /// Puts an array of a few variants, or a template of those that hold a text.
    pub fn put_variants(&mut self) -> Result<()> {
        let count = self.drawing.below(4);
        if self.drawing.is_once_in(4) {
            self.body.put(&[BSER_TEMPLATE])?;
            self.put_counted(BSER_ARRAY, 1)?;
            self.put_key("TestNewtype")?;
            self.put_count(count)?;
            return self.put_texts(count);
        }
        self.put_counted(BSER_ARRAY, count)?;
        for _ in 0..count {
            self.put_variant()?;
        }
        Ok(())
    }

    /// Puts a `TestEnum`.
    fn put_variant(&mut self) -> Result<()> {
        let form = self.drawing.below(5);
        if form == 0 {
            return self.put_string(BSER_BYTESTRING, b"TestUnit");
        }
        self.put_counted(BSER_OBJECT, 1)?;
        match form {
            1 => {
                self.put_key("TestUnit")?;
                self.put_marked(&[BSER_NULL])
            }
            2 => {
                self.put_key("TestNewtype")?;
                self.put_any_text()
            }
            3 => {
                self.put_key("TestTuple")?;
                self.put_counted(BSER_ARRAY, 2)?;
                self.put_texts(2)
            }
            _ => {
                self.put_key("TestStruct")?;
                self.put_struct()
            }
        }
    }

    /// Puts what a `TestStruct` holds.
    fn put_struct(&mut self) -> Result<()> {
        self.put_counted(BSER_OBJECT, 2)?;
        self.put_key("abc")?;
        self.put_any_text()?;
        self.put_key("def")?;
        self.put_any_text()
    }

    /// Puts so many texts.
    fn put_texts(&mut self, count: usize) -> Result<()> {
        for _ in 0..count {
            self.put_any_text()?;
        }
        Ok(())
    }
}
