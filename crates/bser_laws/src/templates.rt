//! A template, and its rows written out as objects.
ghost use Rattle.std.specs.Prelude.{◌≡◌, ◌≤◌, Some, List, ℕ, IsOk, IfOk, IfErr};
ghost use Rattle.bser_laws.specs.TemplateRows.{HoldOne, IsWrittenOut, template_of};
ghost use Rattle.serde_bser.specs.Messages.{IsMemory, IsReaderFault};

use bser_source::device::Source;
use serde_bser::de::{Deserialize, DeserializeOwned, Shape, from_reader_within, from_slice_within};
use serde_bser::errors::Result;
use std::alloc::Global;

/// What a template and its rows written out were read as.
#[derive(Drop)]
pub struct TemplateReadings<T> {
    /// The template.
    pub template: Result<T>,
    /// Its rows as an array of objects.
    pub objects: Result<T>,
}

/// Reads a message of a template, with at most `limit` levels, and another message, with one level
/// more.
///
/// Where the other is that of the template's rows written out as objects, both are read alike: as
/// values that hold one content, or both are refused, memory aside.
pub fn read_written_out<'de, T: Deserialize<&'de [u8]>>(
    alloc: Global,
    limit: usize,
    template: &'de [u8],
    objects: &'de [u8],
) -> TemplateReadings<T>
    requires { limit ≤ 1023 }
    ensures both { (w : IsWrittenOut limit template.now objects.now) → IfOk result.template
        (λ v. IfOk result.objects (HoldOne T.reads T.holds (template_of w) v)) }
    ensures template_alone { IsWrittenOut limit template.now objects.now → IsOk result.template →
        IfErr result.objects (IsMemory T.needs) }
    ensures objects_alone { IsWrittenOut limit template.now objects.now → IsOk result.objects →
        IfErr result.template (IsMemory T.needs) }
{
    let template = from_slice_within(alloc, limit, template);
    let objects = from_slice_within(alloc, limit + 1, objects);
    TemplateReadings { template, objects }
}

/// As [`read_written_out`], from two readers, faults that they counted aside.
pub fn read_written_out_on<R: Source, S: Source, T: DeserializeOwned>(
    alloc: Global,
    limit: usize,
    template: &mut R,
    objects: &mut S,
) -> TemplateReadings<T>
    requires { limit ≤ 1023 }
    ensures both { (xs ys : List ℕ) → R.remaining template.old ≡ Some xs
        → S.remaining objects.old ≡ Some ys → (w : IsWrittenOut limit xs ys) → IfOk result.template
        (λ v. IfOk result.objects (HoldOne T.reads T.holds (template_of w) v)) }
    ensures template_alone { (xs ys : List ℕ) → R.remaining template.old ≡ Some xs
        → S.remaining objects.old ≡ Some ys → IsWrittenOut limit xs ys → IsOk result.template
        → IfErr result.objects (IsReaderFault (S.failures objects.old) (S.failures objects.new)) }
    ensures objects_alone { (xs ys : List ℕ) → R.remaining template.old ≡ Some xs
        → S.remaining objects.old ≡ Some ys → IsWrittenOut limit xs ys → IsOk result.objects
        → IfErr result.template
        (IsReaderFault (R.failures template.old) (R.failures template.new)) }
{
    let template = from_reader_within(alloc, limit, template);
    let objects = from_reader_within(alloc, limit + 1, objects);
    TemplateReadings { template, objects }
}
