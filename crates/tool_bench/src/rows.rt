//! The structs as which an answer of Watchman is read, by lists of fields and by derives.
ghost use Rattle.std.specs.Prelude.{codes, refl, [], ◌∷◌};
ghost use Rattle.bser_structs.specs.Fields.{required, optional, struct_meaning, none_lent};

use bser_serde::{ByteBuf, Bytes};
use serde_bser::bytestring::ByteString;
use serde_bser::de::{Answer, Deserializer};
use serde_bser::prelude::*;
use std::alloc::Global;

/// A file of an answer. The name's bytes and the type's text are lent or owned.
#[derive(Drop, serde::Serialize, serde::Deserialize)]
pub struct MeasuredFile<B, S> {
    pub name: B,
    pub size: u64,
    pub mtime_ms: Option<u64>,
    pub exists: Option<bool>,
    pub mode: Option<u32>,
    #[serde(rename = "type")]
    pub kind: Option<S>,
}

impl<B: Shape, S: Shape> Fields for MeasuredFile<B, S> {
    ghost fields = { required (codes "name") (λ v. v.name) ⟦<B as ReadOnly>⟧.coding
        ∷ required (codes "size") (λ v. v.size) ⟦<u64 as ReadOnly>⟧.coding
        ∷ optional (codes "mtime_ms") (λ v. v.mtime_ms) ⟦<u64 as ReadOnly>⟧.coding
        ∷ optional (codes "exists") (λ v. v.exists) ⟦<bool as ReadOnly>⟧.coding
        ∷ optional (codes "mode") (λ v. v.mode) ⟦<u32 as ReadOnly>⟧.coding
        ∷ optional (codes "type") (λ v. v.kind) ⟦<S as ReadOnly>⟧.coding
        ∷ [] };
}

impl<B: Shape, S: Shape> Meant for MeasuredFile<B, S> {
    ghost meaning = { struct_meaning ⟦<MeasuredFile<B, S> as Fields>⟧.fields };
}

impl<L: LendsText, B: Deserialize<L>, S: Deserialize<L>> Deserialize<L> for MeasuredFile<B, S> {
    fn deserialize<R: DeRead<Lent = L>>(
        alloc: Global,
        from: &mut Deserializer<R>,
    ) -> Answer<MeasuredFile<B, S>> {
        read_struct!(
            alloc,
            from,
            MeasuredFile {
                name: Required("name"),
                size: Required("size"),
                mtime_ms: Optional("mtime_ms"),
                exists: Optional("exists"),
                mode: Optional("mode"),
                kind: Optional("type"),
            }
        )
    }
}

impl<B: OwnedShape, S: OwnedShape> OwnedShape for MeasuredFile<B, S> {
    ghost owned = { none_lent B.owned (none_lent S.owned refl) };
}

impl<B: ByteCount, S: ByteCount> MeasuredFile<B, S> {
    // What was read, added up: lengths and numbers, and 1 for true.
    fn sum(&self) -> u64 {
        let mut sum = self.size.wrapping_add(self.name.count());
        if let Some(kind) = &self.kind {
            sum = sum.wrapping_add(kind.count());
        }
        if self.exists == Some(true) {
            sum = sum.wrapping_add(1);
        }
        sum.wrapping_add(self.mtime_ms.unwrap_or(0))
            .wrapping_add(u64::from(self.mode.unwrap_or(0)))
    }
}

/// An answer, of which the files alone are kept.
#[derive(Drop, serde::Serialize, serde::Deserialize)]
pub struct MeasuredFiles<B, S> {
    pub files: Vec<MeasuredFile<B, S>>,
}

impl<B: Shape, S: Shape> Fields for MeasuredFiles<B, S> {
    ghost fields = { required (codes "files") (λ v. v.files) ⟦<Vec<MeasuredFile<B, S>> as ReadOnly>⟧.coding
        ∷ [] };
}

impl<B: Shape, S: Shape> Meant for MeasuredFiles<B, S> {
    ghost meaning = { struct_meaning ⟦<MeasuredFiles<B, S> as Fields>⟧.fields };
}

impl<L: LendsText, B: Deserialize<L>, S: Deserialize<L>> Deserialize<L> for MeasuredFiles<B, S> {
    fn deserialize<R: DeRead<Lent = L>>(
        alloc: Global,
        from: &mut Deserializer<R>,
    ) -> Answer<MeasuredFiles<B, S>> {
        read_struct!(
            alloc,
            from,
            MeasuredFiles {
                files: Required("files"),
            }
        )
    }
}

impl<B: OwnedShape, S: OwnedShape> OwnedShape for MeasuredFiles<B, S> {
    ghost owned = { none_lent (none_lent B.owned (none_lent S.owned refl)) refl };
}

impl<B: ByteCount, S: ByteCount> MeasuredFiles<B, S> {
    /// What was read of all files, added up: lengths and numbers, and 1 for true.
    pub fn sum(&self) -> u64 {
        let mut sum: u64 = 0;
        for file in &self.files {
            sum = sum.wrapping_add(file.sum());
        }
        sum
    }
}

/// ByteCount that are lent or owned.
pub trait ByteCount {
    /// How many there are.
    fn count(&self) -> u64;
}

impl<'a> ByteCount for &'a [u8] {
    fn count(&self) -> u64 {
        self.len() as u64
    }
}

impl<'a> ByteCount for &'a str {
    fn count(&self) -> u64 {
        self.len() as u64
    }
}

impl ByteCount for ByteString {
    fn count(&self) -> u64 {
        self.as_bytes().len() as u64
    }
}

impl ByteCount for String {
    fn count(&self) -> u64 {
        self.len() as u64
    }
}

impl<'a> ByteCount for Bytes<'a> {
    fn count(&self) -> u64 {
        self.0.count()
    }
}

impl ByteCount for ByteBuf {
    fn count(&self) -> u64 {
        self.0.count()
    }
}
