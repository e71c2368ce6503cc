//! Where the tokens of a text begin.
ghost use Rattle.std.specs.Prelude.{◌≡◌, ◌≤◌, length};
ghost use Rattle.json.specs.Word.{is_operator};
ghost use Rattle.bser_from_json.specs.declared.places.TextState.TheVariants.{Nothing};
ghost use Rattle.bser_from_json.specs.Places.{begins, behind, goes_with, is_passed, past, place_behind, place_from, token_place};

use crate::fault::is_blank;

/// What the bytes before one leave open.
#[derive(Clone, Copy, Drop)]
enum TextState {
    Nothing,
    Word,
    Text,
    Escape,
}

/// How far the token is that is looked for.
#[derive(Clone, Copy, Drop)]
struct Seek {
    inside: TextState,
    // what began last begins with this byte
    last: u8,
    // how many tokens stand before it from here on
    left: usize,
    // whether the comma or the colon of the last of these is passed too
    passes: bool,
}

/// Where the token begins that so many stand before, each with its comma or its colon. One that
/// lacks is where something else begins, or where the text ends.
pub(crate) fn token_place(text: &[u8], count: usize) -> usize
    ensures place { result ≡ token_place text.now count }
    ensures within { result ≤ length text.now }
{
    Seek::behind(count, true).place(text)
}

/// Where what stands right behind so many tokens begins, a comma or a colon too. Where nothing
/// stands there, the text ends.
pub(crate) fn place_behind(text: &[u8], count: usize) -> usize
    ensures place { result ≡ place_behind text.now count }
    ensures within { result ≤ length text.now }
{
    Seek::behind(count, false).place(text)
}

impl Seek {
    /// What is behind so many tokens, and behind the comma or the colon of the last where it passes.
    fn behind(count: usize, passes: bool) -> Seek
        ensures { result
            ≡ record { inside = Nothing; last = 44; left = count; passes = passes } }
    {
        Seek {
            inside: TextState::Nothing,
            last: b',',
            left: count,
            passes,
        }
    }

    /// Where it begins in a text, or where the text ends.
    fn place(self, text: &[u8]) -> usize
        ensures place { result ≡ place_from self 0 text.now }
        ensures within { result ≤ length text.now }
    {
        let mut seek = self;
        for at in 0..text.len() {
            match seek.past(text[at]) {
                Some(next) => seek = next,
                None => return at,
            }
        }
        text.len()
    }

    /// Passes a byte, unless the token begins with it.
    fn past(self, byte: u8) -> Option<Seek>
        ensures { result ≡ past self byte }
    {
        let inside = self.inside.behind(byte);
        if !self.inside.begins(byte) {
            return Some(Seek { inside, ..self });
        }
        let last = byte;
        if self.is_passed(byte) {
            return Some(Seek {
                inside,
                last,
                ..self
            });
        }
        if self.left == 0 {
            return None;
        }
        let left = self.left - 1;
        Some(Seek {
            inside,
            last,
            left,
            ..self
        })
    }

    /// Whether the byte is a comma or a colon that is passed with the token before it.
    fn is_passed(self, byte: u8) -> bool
        ensures { result ≡ is_passed self byte }
    {
        goes_with(self.last, byte) && (self.passes || self.left > 0)
    }
}

impl TextState {
    /// Whether a token, a comma or a colon begins with this byte.
    fn begins(self, byte: u8) -> bool
        ensures { result ≡ begins self byte }
    {
        match self {
            TextState::Nothing => !is_blank(byte),
            TextState::Word => is_operator(byte),
            TextState::Text | TextState::Escape => false,
        }
    }

    /// What this byte leaves open.
    fn behind(self, byte: u8) -> TextState
        ensures { result ≡ behind self byte }
    {
        match self {
            TextState::Nothing if byte == b'"' => TextState::Text,
            TextState::Nothing | TextState::Word => {
                if is_blank(byte) || is_operator(byte) {
                    TextState::Nothing
                } else {
                    TextState::Word
                }
            }
            TextState::Text if byte == b'"' => TextState::Nothing,
            TextState::Text if byte == b'\\' => TextState::Escape,
            TextState::Text | TextState::Escape => TextState::Text,
        }
    }
}

/// Whether the byte is a token by itself, a comma or a colon.
fn is_operator(byte: u8) -> bool
    ensures { result ≡ is_operator byte }
{
    matches!(byte, b'{' | b'}' | b'[' | b']' | b':' | b',')
}

/// Whether a comma or a colon goes with what begins with the byte `last` before it: a colon with a
/// string, and a comma with what ends a value.
fn goes_with(last: u8, byte: u8) -> bool
    ensures { result ≡ goes_with last byte }
{
    match byte {
        b':' => last == b'"',
        b',' => !matches!(last, b'{' | b'[' | b':' | b','),
        _ => false,
    }
}
