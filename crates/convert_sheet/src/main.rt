// Reads a deal sheet's file, and writes the file of the same sheet in the other unit of risk weights to standard
// output; or a line with the refusal to standard error, and nothing to standard output. What fails is said on standard
// error too.
#![tactic(auto)]

mod reading;

use judgement::Refusal;
use std::rt::{Env, Files};

// A file is read into one byte more than a sheet has, so that a longer file is seen to be too long.
// The programs are alike in form: each has its own text, room and line for what fails.
fn main(rt: HostRuntime) {
    let mut file = [0u8; limits::BYTE_LIMIT + 1];
    convert_named(&rt, &rt.stderr(), &mut file);
}

// Reads the file that the argument names, and converts it.
fn convert_named<R: Env + Files + Input + Print, E: Print>(rt: &R, err: &E, file: &mut [u8]) {
    let usage = b"usage: convert_sheet FILE (- for standard input)\n";
    if let Some(size) = reading::read_named(rt, err, usage, file) {
        write_converted(rt, err, &file[..size]);
    }
}

// Writes the file of the rewritten sheet, eight bytes for each word, or the refusal; the buffer has room for every
// sheet.
fn write_converted<O: Print, E: Print>(out: &O, err: &E, file: &[u8]) {
    let mut bytes = [0u8; limits::BYTE_LIMIT];
    match conversion_file::convert_file(file, &mut bytes) {
        Ok(n) => write_words(out, err, n, &bytes),
        Err(r) => write_refusal(err, r),
    }
}

// Writes the first n words of a buffer to standard output; no sheet has more words than fit it.
// The count stays beside the list: it comes as the answer of what wrote it.
fn write_words<O: Print, E: Print>(out: &O, err: &E, n: u64, bytes: &[u8]) {
    let count = n.min(limits::WORD_LIMIT as u64);
    reading::write_start(
        out,
        err,
        8 * count,
        bytes,
        b"convert_sheet: standard output can't be written\n",
    );
}

// Writes the line of a refusal to standard error; the buffer has room for that of every refusal.
fn write_refusal<E: Print>(err: &E, r: Refusal) {
    let mut text = [0u8; report::REFUSAL_ROOM];
    match report::refusal_line(r.reason.number(), r.place, &mut text) {
        Ok(n) => {
            let size = buffers::within(n, &text);
            let _ = err.write_all(&text[..size]);
        }
        Err(_) => {
            let _ = err.write_all(b"convert_sheet: no room for the refusal\n");
        }
    }
}
