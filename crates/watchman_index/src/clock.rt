//! What clocks say by their texts.
ghost use Rattle.std.specs.Prelude.{◌≡◌, MatchOption, ℕ};
ghost use Rattle.std.specs.Bool.{Decides};
ghost use Rattle.watchman_index.specs.Clocks.{instance_of, is_one_instance, HasTicks, IsToldBy};

/// Returns the part of a clock before its ticks, which are behind its last colon. It says when the
/// server began, its process, and how often it crawled a root. It is empty for a text without a
/// colon.
pub fn instance_of_clock(clock: &[u8]) -> &[u8]
    ensures { result.now ≡ instance_of clock.now }
{
    match clock.iter().rposition(|byte| *byte == b':') {
        Some(at) => &clock[..at],
        None => &[],
    }
}

/// Returns whether both clocks are of one server and of one crawl of the root. Then the later one
/// counts on from the earlier one.
pub fn are_of_one_instance(a: &[u8], b: &[u8]) -> bool
    ensures { result ≡ is_one_instance a.now b.now }
{
    let instance = instance_of_clock(a);
    instance == instance_of_clock(b) && !instance.is_empty()
}

/// Returns whether all is told up to this clock, where all is told up to the last one. It is the
/// same, or of the same server and crawl, with no more ticks.
pub fn is_told_by(last: &[u8], clock: &[u8]) -> bool
    ensures { Decides result (IsToldBy last.now clock.now) }
{
    if last == clock {
        return true;
    }
    match (ticks_of(last), ticks_of(clock)) {
        (Some(most), Some(ticks)) => ticks <= most && are_of_one_instance(last, clock),
        _ => false,
    }
}

/// The ticks of a clock, behind its last colon. `None` where no number of 64 bits stands there.
fn ticks_of(clock: &[u8]) -> Option<u64>
    ensures { MatchOption result ((n : ℕ) → ¬ HasTicks clock.now n) (HasTicks clock.now) }
{
    let behind = clock.get(instance_of_clock(clock).len() + 1..)?;
    match std::str::from_utf8(behind) {
        Ok(text) => text.parse().ok(),
        Err(_) => None,
    }
}
