//! Accesses to containers that were opened by their heads.
ghost use Rattle.std.specs.Prelude.{◌≡◌};
ghost use Rattle.bser_deserializer.specs.View.{items_head, pairs_head};
ghost use Rattle.bser_types.specs.Accesses.{open_items, IsSeqOf, open_pairs, IsMapOf};

use crate::map::MapAccess;
use crate::seq::SeqAccess;
use bser_deserializer::container::{MapHead, SeqHead};
use bser_deserializer::deserializer::Deserializer;
use bser_source::read::DeRead;

/// Returns an access to the items of the array or template that this head opened.
#[inline(always)]
pub fn items_of<'a, R: DeRead>(from: &'a mut Deserializer<R>, head: SeqHead) -> SeqAccess<'a, R>
    ensures same_reference { IsSeqOf from.entry result }
    ensures opened { open_items result ≡ items_head head from.old.state }
{
    SeqAccess { from, head }
}

/// Returns an access to the entries of the object or row that this head opened, before its first
/// key.
#[inline(always)]
pub fn pairs_of<'a, R: DeRead>(from: &'a mut Deserializer<R>, head: MapHead) -> MapAccess<'a, R>
    ensures same_reference { IsMapOf from.entry result }
    ensures opened { open_pairs result ≡ pairs_head head from.old.state }
{
    MapAccess {
        from,
        head,
        pending: false,
    }
}
