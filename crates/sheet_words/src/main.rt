// Reads a sheet that is written by hand, and writes the bytes of its file to standard output. What fails is said in one
// line on standard error.
#![tactic(auto)]

mod reading;

use sheet_text::{Span, TextFault};
use std::rt::{Env, Files};

// The most bytes that a text may have.
const TEXT_LIMIT: usize = 1048575;

// The most bytes that are shown of a token.
const SHOWN_MOST: usize = 40;

// A text is read into one byte more than the longest has, so that a longer text is seen to be too long.
fn main(rt: HostRuntime) {
    let mut text = [0u8; TEXT_LIMIT + 1];
    write_named(&rt, &rt.stderr(), &mut text);
}

// Reads the text that the argument names, and writes the bytes of its sheet.
fn write_named<R: Env + Files + Input + Print, E: Print>(rt: &R, err: &E, text: &mut [u8]) {
    let usage = b"usage: sheet_words FILE (- for standard input)\n";
    match reading::read_named(rt, err, usage, text) {
        Some(size) if size < text.len() => write_sheet(rt, err, &text[..size]),
        Some(_) => refuse_length(err),
        None => {}
    }
}

// Writes the bytes of the sheet that a text makes, or says why it makes none.
fn write_sheet<O: Print, E: Print>(out: &O, err: &E, text: &[u8]) {
    let mut bytes = [0u8; limits::BYTE_LIMIT];
    match sheet_text::sheet_bytes(text, &mut bytes) {
        Ok(n) => reading::write_start(
            out,
            err,
            n,
            &bytes,
            b"sheet_words: standard output can't be written\n",
        ),
        Err(TextFault::NotDecimal(token)) => refuse_token(
            err,
            text,
            token,
            " is not a decimal number",
        ),
        Err(TextFault::TooLarge(token)) => refuse_token(err, text, token, " is above 64 bits"),
        Err(TextFault::TooMany(n)) => refuse_count(err, n),
    }
}

// Says of the token that stands at a place of the text what is wrong with it.
fn refuse_token<E: Print>(err: &E, text: &[u8], token: Span, wrong: &str) {
    let end = buffers::within(token.end, text);
    let before = &text[..end];
    let start = buffers::within(token.start, before);
    let line = token.line;
    let _ = print!(err; "line {line}: ");
    show_token(err, &before[start..]);
    let _ = println!(err; "{wrong}");
}

// Writes a token as it stands, of a long one its first 40 bytes.
fn show_token<E: Print>(err: &E, token: &[u8]) {
    if token.len() <= SHOWN_MOST {
        let _ = err.write_all(token);
    } else {
        let _ = err.write_all(&token[..SHOWN_MOST]);
        let _ = err.write_all(b"...");
    }
}

// Says that the text is too long.
fn refuse_length<E: Print>(err: &E) {
    let _ = println!(err; "the text has more than {TEXT_LIMIT} bytes");
}

// Says that there are more words than a sheet has.
fn refuse_count<E: Print>(err: &E, n: u64) {
    let most = limits::WORD_LIMIT;
    let _ = println!(err; "{n} words, and a sheet has at most {most}");
}
