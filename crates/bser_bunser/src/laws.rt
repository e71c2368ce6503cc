//! Laws of the plain readers that contracts cite: functions that do nothing, whose contracts are
//! the laws.

ghost use Rattle.bser_format.specs.Named.{int, size, string};
ghost use Rattle.bser_format.specs.Named as named;
ghost use Rattle.bser_bunser.specs.Names.{Excuses};
ghost use Rattle.bser_bunser.specs.Tagged.{IsInteger, IsLength, IsToken, IsString, IsHead};
ghost use Rattle.bser_bunser.specs.Tokens.{token, TokensBeginValues};

/// Where a level is left, a value is read by reading its first token and then what follows that. So
/// an error of a token is one of the value too.
pub fn tokens_begin_values()
    ensures { TokensBeginValues }
{}

/// Where the bytes left begin as is wanted, an error has a reason outside them: memory, an I/O
/// error of the reader, an earlier error, or a count that overflows.
pub fn spelled_is_read()
    ensures integer { Excuses IsInteger int }
    ensures length { Excuses IsLength size }
    ensures token { Excuses IsToken token }
    ensures string { Excuses IsString string }
    ensures head { Excuses IsHead named.head }
{}
