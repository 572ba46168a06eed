// The words of a text, read once from left to right. A token is judged where it ends.
ghost use Rattle.std.specs.Prelude.{List, [], ◌++◌, ◌≡◌, ℕ, suc, ◌+◌, ◌*◌, ◌^◌, ◌≤◌, ◌<◌, length, set};
ghost use Rattle.sheet_text.specs.SheetText.{white, Token, ended, tokens};
ghost use Rattle.sheet_text.specs.Scanning.{seen, comment_after, fitted, with_character, span_at, past_white, past_character, Counted, Sums, Onward, Ends};

use crate::{Span, TextFault};

// Characters by their codes.
const NEWLINE: u8 = 10;

const SPACE: u8 = 32;

const HASH: u8 = 35;

// What the characters of a token make: a number; a number over 64 bits; no decimal number. A state of three cases, which
// is no answer: it is asked again with each character.
#[derive(Clone, Copy)]
enum Numeral {
    Number(u64),
    Over,
    Other,
}

// How far a text is read: the place; the newlines and the words before it; the token that is under way there, by its
// number of characters, 0 where there is none, and what they make.
#[derive(Clone, Copy)]
struct Scan {
    at: usize,
    newlines: u64,
    count: usize,
    size: u64,
    numeral: Numeral,
}

// A character as it is read: one of a comment, but for the newline that ends it, is a space.
fn seen(comment: bool, b: u8) -> u8
    ensures { result ≡ seen comment b }
{
    if comment_after(comment, b) { SPACE } else { b }
}

// Whether a comment goes on after a character.
fn comment_after(comment: bool, b: u8) -> bool
    ensures { result ≡ comment_after comment b }
{
    b != NEWLINE && (comment || b == HASH)
}

// Whether a character is white space, which parts tokens: a space, or one of the codes 9 to 13.
fn white(b: u8) -> bool
    ensures { result ≡ white b }
{
    matches!(b, SPACE | 9..=13)
}

// A number with one digit more. The test is on what is left below 2 ^ 64, so that nothing wraps; a wrong program is a
// wrong test of it, which `checked_mul` would hide.
fn with_digit(n: u64, d: u64) -> Numeral
    requires { d < 10 }
    ensures { result ≡ fitted (10 * n + d) }
{
    if n <= (u64::MAX - d) / 10 {
        Numeral::Number(10 * n + d)
    } else {
        Numeral::Over
    }
}

// What a token's characters make with one more.
fn with_character(n: Numeral, b: u8) -> Numeral
    ensures { result ≡ with_character n b }
{
    match n {
        _ if !b.is_ascii_digit() => Numeral::Other,
        Numeral::Number(v) => with_digit(v, u64::from(b - b'0')),
        Numeral::Over | Numeral::Other => n,
    }
}

// Where the token under way stands, which ends here. Lines are counted from 1; the token's own characters leave room
// for that one more.
fn span(s: Scan) -> Span
    requires { Counted s × (0 < s.size) }
    ensures { result ≡ span_at s }
{
    let end = s.at as u64;
    Span {
        line: s.newlines + 1,
        start: end - s.size,
        end,
    }
}

// Stores a word at its index, if there is room: words past the room are only counted.
// The test stands where `get_mut` could, since a proof knows no element of a slice that was written through `get_mut`.
fn put(words: &mut [u64], i: usize, w: u64)
    ensures { words.new ≡ set words.old i w }
{
    if i < words.len() {
        words[i] = w;
    }
}

// Ends the token under way, if there is one: it is refused, or its number is the next word.
fn end_token(s: Scan, words: &mut [u64]) -> Result<usize, TextFault>
    requires { Counted s }
    ensures { (all ahead : List Token) (begun : List ℕ) → Sums s begun →
        Onward all s.count words.old (ended (suc s.newlines) s.at begun ++ ahead) →
        Ends all s.at words.new ahead result }
{
    if s.size == 0 {
        return Ok(s.count);
    }
    match s.numeral {
        Numeral::Number(v) => {
            put(words, s.count, v);
            Ok(s.count + 1)
        }
        Numeral::Over => Err(TextFault::TooLarge(span(s))),
        Numeral::Other => Err(TextFault::NotDecimal(span(s))),
    }
}

// The scan behind white space, with the number of words up to there.
fn past_white(s: Scan, b: u8, count: usize) -> Scan
    requires { (s.at + 1 < 2 ^ 64) × (s.newlines ≤ s.at) }
    ensures { result ≡ past_white s b count }
{
    Scan {
        at: s.at + 1,
        newlines: s.newlines + u64::from(b == NEWLINE),
        count,
        size: 0,
        numeral: Numeral::Number(0),
    }
}

// The scan behind a character of a token.
fn past_character(s: Scan, b: u8) -> Scan
    requires { (s.at + 1 < 2 ^ 64) × (s.size ≤ s.at) }
    ensures { result ≡ past_character s b }
{
    Scan {
        at: s.at + 1,
        size: s.size + 1,
        numeral: with_character(s.numeral, b),
        ..s
    }
}

// Reads a text's words and stores them, as far as they have room: their number, or what the first token that is no word
// makes.
pub(crate) fn read_words(text: &[u8], words: &mut [u64]) -> Result<usize, TextFault>
    ensures { Ends (tokens text.now) (length text.now) words.new [] result }
{
    let mut comment = false;
    let mut s = Scan {
        at: 0,
        newlines: 0,
        count: 0,
        size: 0,
        numeral: Numeral::Number(0),
    };
    for &character in text {
        let b = seen(comment, character);
        comment = comment_after(comment, character);
        if white(b) {
            let count = end_token(s, words)?;
            s = past_white(s, b, count);
        } else {
            s = past_character(s, b);
        }
    }
    end_token(s, words)
}
