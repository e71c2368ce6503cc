//! Structs that worked messages are read as. Their fields come in any order, and a name that no
//! field has is passed over.
ghost use Rattle.std.specs.Prelude.{false, ◌||◌, [], ◌∷◌, None};
ghost use Rattle.std.proofs.Common.{ap};
ghost use Rattle.bser_deserializer.specs.Reading.{bare};
ghost use Rattle.bser_types.specs.Slots.{struct_needs};
ghost use Rattle.bser_vectors.specs.Structs.{reads_file, HoldsFile, asking_file, reads_files, HoldsFiles, asking_files, reads_row, HoldsRow, asking_row};

use bser_bunser::refusal::Answer;
use bser_deserializer::deserializer::Deserializer;
use bser_source::read::DeRead;
use bser_source::reference::LendsText;
use bser_structs::slot::{Optional, Required};
use bser_structs::struct_reader::ReadsFields;
use bser_types::deserialize::{Deserialize, OwnedShape, Shape};
use std::alloc::Global;

/// A file's name and size.
#[derive(Debug, PartialEq, Eq, Drop, serde::Serialize, serde::Deserialize)]
pub struct FileInfo<S> {
    pub name: S,
    pub size: u32,
}

impl<S: Shape> Shape for FileInfo<S> {
    ghost reads = { reads_file S.reads };

    ghost holds = { HoldsFile S.holds };

    ghost needs = { struct_needs (S.needs ∷ bare ∷ []) };

    ghost asks = { asking_file S.asks };

    ghost plain = { None };
}

impl<L: LendsText, S: Deserialize<L>> Deserialize<L> for FileInfo<S> {
    fn deserialize<R: DeRead<Lent = L>>(
        alloc: Global,
        from: &mut Deserializer<R>,
    ) -> Answer<FileInfo<S>> {
        let (name, (size, ())) = from.read_fields::<(Required<S>, (Required<u32>, ()))>(
            alloc,
            &["name", "size"],
        )?;
        Ok(FileInfo { name, size })
    }
}

impl<S: OwnedShape> OwnedShape for FileInfo<S> {
    ghost owned = { ap (λ a. a || false) S.owned };
}

/// The files of an answer.
#[derive(Debug, PartialEq, Eq, Drop, serde::Serialize, serde::Deserialize)]
pub struct Files<S> {
    pub files: Vec<FileInfo<S>>,
}

impl<S: Shape> Shape for Files<S> {
    ghost reads = { reads_files S.reads };

    ghost holds = { HoldsFiles S.holds };

    ghost needs = { struct_needs (struct_needs (S.needs ∷ bare ∷ []) ∷ []) };

    ghost asks = { asking_files S.asks };

    ghost plain = { None };
}

impl<L: LendsText, S: Deserialize<L>> Deserialize<L> for Files<S> {
    fn deserialize<R: DeRead<Lent = L>>(
        alloc: Global,
        from: &mut Deserializer<R>,
    ) -> Answer<Files<S>> {
        let (files, ()) = from.read_fields::<(Required<Vec<FileInfo<S>>>, ())>(alloc, &["files"])?;
        Ok(Files { files })
    }
}

impl<S: OwnedShape> OwnedShape for Files<S> {
    ghost owned = { ap (λ a. (a || false) || false) S.owned };
}

/// A row of the worked template: a number, and a text and a number that may be absent.
#[derive(Debug, PartialEq, Eq, Drop, serde::Serialize, serde::Deserialize)]
pub struct TemplateRow<S> {
    pub abc: i32,
    pub def: Option<S>,
    pub ghi: Option<i64>,
}

impl<S: Shape> Shape for TemplateRow<S> {
    ghost reads = { reads_row S.reads };

    ghost holds = { HoldsRow S.holds };

    ghost needs = { struct_needs (bare ∷ S.needs ∷ bare ∷ []) };

    ghost asks = { asking_row S.asks };

    ghost plain = { None };
}

impl<L: LendsText, S: Deserialize<L>> Deserialize<L> for TemplateRow<S> {
    fn deserialize<R: DeRead<Lent = L>>(
        alloc: Global,
        from: &mut Deserializer<R>,
    ) -> Answer<TemplateRow<S>> {
        let (abc, (def, (ghi, ()))) = from.read_fields::<
            (Required<i32>, (Optional<S>, (Optional<i64>, ()))),
        >(alloc, &["abc", "def", "ghi"])?;
        Ok(TemplateRow { abc, def, ghi })
    }
}

impl<S: OwnedShape> OwnedShape for TemplateRow<S> {
    ghost owned = { ap (λ a. a || false) S.owned };
}
