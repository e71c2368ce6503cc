//! The names of a struct's fields.
ghost use Rattle.std.specs.Prelude.{◌≡◌, map};
ghost use Rattle.std.specs.Str.{bytes_eq};
ghost use Rattle.bser_deserializer.specs.Fields.{field_of};

/// A field's place among the names that were asked for.
#[derive(Debug, Clone, Copy, PartialEq, Eq)]
pub enum Field {
    /// The name is the one at this place.
    Known(usize),
    /// The name is none of them.
    Unknown,
}

/// Returns the first place of the name.
#[inline(always)]
pub fn find_field(names: &[&str], name: &[u8]) -> Field
    ensures { result ≡ field_of (map (λ r. r.now) names.now) name.now }
{
    for (place, known) in names.iter().enumerate() {
        if is_same(known.as_bytes(), name) {
            return Field::Known(place);
        }
    }
    Field::Unknown
}

/// Returns whether these are the same bytes. Each is compared, also after one that differs, so that
/// a name that is constant is compared by whole words.
#[inline(always)]
pub fn is_same(known: &[u8], name: &[u8]) -> bool
    ensures { result ≡ bytes_eq known.now name.now }
{
    if known.len() != name.len() {
        return false;
    }
    let mut same = true;
    for place in 0..known.len() {
        if known[place] != name[place] {
            same = false;
        }
    }
    same
}
