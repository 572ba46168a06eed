// A sheet written by hand: decimal words with white space between them and comments from `#` to the line's end, turned
// into the bytes of a file.
#![tactic(auto)]

ghost use Rattle.std.specs.Prelude.{◌≡◌, length};
ghost use Rattle.sheet_text.specs.SheetText.{made_of, bytes_for};

use files::store;
use limits::WORD_LIMIT;
use tokens::read_words;

mod tokens;

// Where a token stands in a text: its line, from 1, the place of its first character and the place after its last.
#[derive(Clone, Copy, Debug, PartialEq, Eq)]
pub struct Span {
    pub line: u64,
    pub start: u64,
    pub end: u64,
}

// Why a text makes no sheet: a token that is no decimal number, or one above 64 bits; or so many words, which are more
// than there is room for or more than a sheet has.
#[derive(Clone, Copy, Debug, PartialEq, Eq)]
pub enum TextFault {
    NotDecimal(Span),
    TooLarge(Span),
    TooMany(u64),
}

// Turns a text into the bytes of a file, at the start of a lent buffer, later bytes untouched, and answers how many;
// where it makes none, nothing is written.
pub fn sheet_bytes(text: &[u8], bytes: &mut [u8]) -> Result<u64, TextFault>
    ensures value { result ≡ made_of text.now (length bytes.old) }
    ensures bytes_after { bytes.new ≡ bytes_for text.now bytes.old (made_of text.now (length bytes.old)) }
{
    let mut words = [0u64; WORD_LIMIT];
    let count = read_words(text, &mut words)?;
    if WORD_LIMIT < count || bytes.len() / 8 < count {
        return Err(TextFault::TooMany(count as u64));
    }
    store(&words[..count], bytes);
    Ok(8 * count as u64)
}
