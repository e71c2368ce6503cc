//! Bytes as texts.
ghost use Rattle.std.specs.Prelude.{◌≡◌, ◌≤◌, length, IsUtf8, IsAscii, MatchBool, MatchOption};
ghost use Rattle.std.specs.Str.{IsNotAscii};

/// Returns the bytes as a text, where they are UTF-8.
///
/// A few bytes of ASCII are a text without the search that [`str::from_utf8`] begins with.
#[inline(always)]
pub fn as_text(bytes: &[u8]) -> Option<&str>
    ensures { MatchOption result (¬ (IsUtf8 bytes.now))
        (λ t. (t.now ≡ bytes.now) × IsUtf8 bytes.now) }
{
    if is_short_ascii(bytes) {
        return Some(unsafe { str::from_utf8_unchecked(bytes) });
    }
    match str::from_utf8(bytes) {
        Ok(text) => Some(text),
        Err(_) => None,
    }
}

/// Whether these are at most eight bytes, all of them ASCII.
#[inline(always)]
fn is_short_ascii(bytes: &[u8]) -> bool
    ensures { MatchBool result ((length bytes.now ≤ 8) × IsAscii bytes.now)
        (length bytes.now ≤ 8 → IsNotAscii bytes.now) }
{
    if bytes.len() > 8 {
        return false;
    }
    for &byte in bytes {
        if byte >= 0x80 {
            return false;
        }
    }
    true
}
