//! The first token of a value, where only so many levels are left.
ghost use Rattle.std.specs.Prelude.{◌≡◌, ◌<◌, true, false, IfOk, OnOk, OnErr};
ghost use Rattle.bser_format.specs.Errors.{error_of};
ghost use Rattle.bser_bunser.specs.Calls.{TakesToken, Keeps, Closes};
ghost use Rattle.bser_bunser.specs.Tokens.{LengthFits};
ghost use Rattle.bser_events.specs.Found.{IsContainer, LevelsFor, NoToken};
ghost use Rattle.bser_events.specs.Places.{reading_at};

use crate::builder::taken;
use crate::refusal::{Fault, refuse_with};
use bser_bunser::bunser::Bunser;
use bser_bunser::prefix::Token;
use bser_bunser::refusal::Answer;
use bser_format::errors::{Error, Kind, ReadCause};
use bser_format::header::{BSER_ARRAY, BSER_OBJECT, BSER_TEMPLATE};
use bser_source::read::DeRead;

/// Takes a token, and returns how many bytes were taken before it. A container where no level is
/// left is an error before its count is looked at.
#[inline(always)]
pub fn token_within<R: DeRead>(bunser: &mut Bunser<R>, levels: usize) -> Answer<(Token, usize)>
    ensures ok { IfOk result (λ p. TakesToken p.0 bunser.old bunser.new) }
    ensures start { IfOk result (λ p. p.1 ≡ reading_at bunser.old.window) }
    ensures fits { IfOk result (λ p. LengthFits p.0) }
    ensures level { IfOk result (λ p. IsContainer p.0 → 0 < levels) }
    ensures kept { OnOk result (Keeps bunser.old bunser.new) }
    ensures err { OnErr result (NoToken levels bunser.old bunser.new) }
{
    let start = taken(bunser);
    check_level(bunser, levels)?;
    let token = bunser.token()?;
    Ok((token, start))
}

/// Fails at the tag of a container where no level is left.
#[inline(always)]
fn check_level<R: DeRead>(bunser: &mut Bunser<R>, levels: usize) -> Answer<()>
    ensures ok { OnOk result (LevelsFor levels bunser.old.window bunser.new.window) }
    ensures kept { OnOk result (Keeps bunser.old bunser.new) }
    ensures err { OnErr result (NoToken levels bunser.old bunser.new) }
{
    if levels != 0 {
        return Ok(());
    }
    bunser.fill(1)?;
    match bunser.buffered()[0] {
        BSER_ARRAY => Err(refuse_with(bunser, Fault::Level(Kind::Array))),
        BSER_OBJECT => Err(refuse_with(bunser, Fault::Level(Kind::Object))),
        BSER_TEMPLATE => Err(refuse_with(bunser, Fault::Level(Kind::Template))),
        _ => Ok(()),
    }
}

/// Fails what comes after an error.
pub fn check_working<R: DeRead>(bunser: &mut Bunser<R>) -> Answer<()>
    ensures ok { OnOk result (bunser.old.window.failed ≡ false) }
    ensures same { OnOk result (bunser.new ≡ bunser.old) }
    ensures failed { OnErr result (bunser.old.window.failed ≡ true) }
    ensures reason { OnErr result (bunser.new.refusal ≡ error_of ReadCause.Failed) }
    ensures state { OnErr result (Closes bunser.old bunser.new) }
{
    if bunser.is_failed() {
        return Err(bunser.refuse(Error::de_reader_error(ReadCause::Failed)));
    }
    Ok(())
}
