// Reads a file that an argument names into a buffer, and writes the start of one to standard output. What fails is said
// in one line on standard error, which callers lend as `err`. No contract can say which bytes are read: the promise is
// that the buffer has as many as are counted. So reading is private to the programs: this file is src/reading.rt of
// tranche_report, portfolio_totals, convert_sheet, sheet_words and checked_examples alike, byte for byte
// (tests/programs.sh sees to that).
ghost use Rattle.std.specs.Prelude.{IfSome};
ghost use Rattle.buffers.specs.CountWithin.{HasBytes};
ghost use Rattle.std.specs.Io.{ReadsAtMost};

use std::env::FillError;
use std::io::{Cursor, Write};
use std::rt::{Env, Files};
use std::{fs, io, str};

// The most bytes that an argument may have, as many as a path of Linux with the zero that ends it.
const NAME_LIMIT: usize = 4096;

// Whether the program has an argument i; 0 is its own name.
pub(crate) fn has_argument<R: Env>(rt: &R, i: usize) -> bool {
    let mut start = [0u8; 1];
    !matches!(rt.arg(i, &mut start), Err(FillError::NotPresent))
}

// Reads the file that the program's one argument names, and answers how many bytes it put at the buffer's start; if
// they fill it there may be more to read. Where nothing was read a line has said why. With any other number of
// arguments it writes `usage`, a line with its line end.
pub(crate) fn read_named<R: Env + Files + Input, E: Print>(
    rt: &R,
    err: &E,
    usage: &[u8],
    buf: &mut [u8],
) -> Option<usize>
    ensures { IfSome result (λ n. HasBytes n buf.new) }
{
    if !has_argument(rt, 1) || has_argument(rt, 2) {
        let _ = err.write_all(usage);
        return None;
    }
    read_argument(rt, err, 1, usage, buf)
}

// Reads the file that argument i names, and standard input where the argument is `-`. Where it is empty, `usage` is
// written.
pub(crate) fn read_argument<R: Env + Files + Input, E: Print>(
    rt: &R,
    err: &E,
    i: usize,
    usage: &[u8],
    buf: &mut [u8],
) -> Option<usize>
    ensures { IfSome result (λ n. HasBytes n buf.new) }
{
    let mut argument = [0u8; NAME_LIMIT];
    match rt.arg(i, &mut argument) {
        Ok(0) => {
            let _ = err.write_all(usage);
            None
        }
        Ok(n) => read_name(rt, err, &argument[..n], buf),
        Err(FillError::TooLong) => {
            say(err, "the argument", "File name too long");
            None
        }
        Err(FillError::NotPresent) => {
            say(err, "the argument", "Invalid argument");
            None
        }
    }
}

// Reads the file of that name, and standard input where it is `-`.
fn read_name<R: Files + Input, E: Print>(
    rt: &R,
    err: &E,
    name: &[u8],
    buf: &mut [u8],
) -> Option<usize>
    ensures { IfSome result (λ n. HasBytes n buf.new) }
{
    let Ok(name) = str::from_utf8(name) else {
        say(err, "the argument", "not UTF-8");
        return None;
    };
    if name == "-" {
        let mut input = rt.reader();
        return read_open(err, &mut input, "standard input", buf);
    }
    match fs::open(rt, name) {
        Ok(mut file) => read_open(err, &mut file, name, buf),
        Err(error) => {
            fail(err, name, &error);
            None
        }
    }
}

// Reads what is open until the buffer is full or the input ends; `name` is what a failure is said of.
fn read_open<F: io::Read, E: Print>(
    err: &E,
    input: &mut F,
    name: &str,
    buf: &mut [u8],
) -> Option<usize>
    ensures { IfSome result (λ n. HasBytes n buf.new) }
{
    match read_full(input, buf) {
        Ok(size) => Some(size),
        Err(error) => {
            fail(err, name, &error);
            None
        }
    }
}

// Reads until the buffer is full or the input ends, and answers how many bytes it put at the buffer's start.
fn read_full<F: io::Read>(input: &mut F, buf: &mut [u8]) -> io::Result<usize>
    ensures { ReadsAtMost result buf.new }
{
    let mut start = io::Read::take(&mut *input, buf.len() as u64);
    let count = io::copy(&mut start, &mut Cursor::new(&mut *buf))?;
    Ok(buffers::within(count, buf))
}

// Writes the first n bytes of a buffer to standard output. Where that fails it writes `failed`, a line with its line
// end, to standard error.
// The count stays beside the list: it comes as the answer of what wrote it.
pub(crate) fn write_start<O: Print, E: Print>(
    out: &O,
    err: &E,
    n: u64,
    bytes: &[u8],
    failed: &[u8],
) {
    let length = buffers::within(n, bytes);
    if out.write_all(&bytes[..length]).is_err() {
        let _ = err.write_all(failed);
    }
}

// The bytes that hold the text of every error: the system's, at most 256, and the number that std writes after it.
const ERROR_ROOM: usize = 320;

// Says on standard error what failed and why: the system's text for the error, without the number that std writes after
// it.
fn fail<E: Print>(err: &E, what: &str, error: &io::Error) {
    let mut text = Cursor::new([0u8; ERROR_ROOM]);
    let _ = write!(text, "{error}");
    let bytes = text.get_ref();
    let length = buffers::within(text.position(), bytes);
    let whole = str::from_utf8(&bytes[..length]).unwrap_or("");
    say(err, what, without_number(whole));
}

// An error's text without the number of the system that std writes after it.
fn without_number(text: &str) -> &str {
    text.split_once(" (os error ")
        .map_or(text, |(start, _)| start)
}

// Writes a line to standard error: what failed, and why.
fn say<E: Print>(err: &E, what: &str, why: &str) {
    let _ = println!(err; "{what}: {why}");
}
