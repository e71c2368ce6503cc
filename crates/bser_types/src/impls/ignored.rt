//! What is read and not kept.
ghost use Rattle.std.specs.Prelude.{◌≡◌, refl, Some, None, IfOk, OnErr};
ghost use Rattle.bser_format.specs.Content.{one};
ghost use Rattle.bser_format.specs.ReadsAny.{reads_ignored};
ghost use Rattle.bser_deserializer.specs.Askings.{asking_ignored};
ghost use Rattle.bser_deserializer.specs.Reading.{owned};
ghost use Rattle.bser_types.specs.Accesses.{SkipsDue, RefusesSkip};

use crate::deserialize::{Deserialize, OwnedShape, Shape};
use bser_bunser::refusal::Answer;
use bser_deserializer::deserializer::Deserializer;
pub use bser_events::builder::Ignored;
use bser_source::read::DeRead;
use bser_source::reference::LendsText;
use std::alloc::Global;

impl Shape for Ignored {
    ghost reads = { reads_ignored };

    ghost holds = { λ _ c. c ≡ one };

    ghost needs = { owned };

    ghost asks = { Some asking_ignored };

    ghost plain = { None };
}

impl<L: LendsText> Deserialize<L> for Ignored {
    fn deserialize<R: DeRead<Lent = L>>(
        _alloc: Global,
        from: &mut Deserializer<R>,
    ) -> Answer<Ignored> {
        from.read_any(&mut Ignored)?;
        Ok(Ignored)
    }
}

impl OwnedShape for Ignored {
    ghost owned = { refl };
}

/// Skips values, as a [`Deserializer`] does. A trait, since the deserializer is a type of a lower
/// crate, to which only a trait adds calls.
pub trait SkipsValues {
    /// Skips what is expected, of any kind, whole.
    fn skip_value(&mut self) -> Answer<()>;
}

impl<R: DeRead> SkipsValues for Deserializer<R>
where
    R::Lent: LendsText,
{
    /// Skips what is expected, of any kind, whole, and keeps nothing of it.
    ///
    /// It is read as [`Ignored`] is: well-formed, the keys of its objects UTF-8. It takes memory
    /// for the containers that are open inside, and over a reader for keys and texts. After an
    /// error each later call fails.
    fn skip_value(&mut self) -> Answer<()>
        ensures found { IfOk result (SkipsDue self.old self.new) }
        ensures refused { OnErr result (RefusesSkip self.old self.new) }
    {
        Ignored::deserialize(self.allocator(), self)?;
        Ok(())
    }
}
