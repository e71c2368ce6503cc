//! Suffixes of names.
ghost use Rattle.std.specs.Prelude.{◌≡◌};
ghost use Rattle.std.specs.Option.{option_map};
ghost use Rattle.watchman_index.specs.Suffixes.{is_mark, suffix_of};

/// Returns what is behind the last dot of a path's last component, as Watchman has it. The suffix
/// of `.profile` is `profile`.
pub fn suffix_of(name: &[u8]) -> Option<&[u8]>
    ensures { option_map (λ suffix. suffix.now) result ≡ suffix_of name.now }
{
    match name.iter().rposition(|byte| is_mark(*byte)) {
        Some(at) if name[at] == b'.' => Some(&name[at + 1..]),
        _ => None,
    }
}

/// Whether the byte is a dot or a slash.
fn is_mark(byte: u8) -> bool
    ensures { result ≡ is_mark byte }
{
    byte == b'.' || byte == b'/'
}
