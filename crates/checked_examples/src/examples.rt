// The examples that are written as sheets, and as sheets with amendments: each argument names one.
use crate::amendments::{is_amended, print_amended};
use crate::conversions::print_file_converted;
use crate::reading;
use limits::BYTE_LIMIT;
use report::{NoRoom, TEXT_ROOM, TOTALS_ROOM};
use std::rt::{Env, Files};

// The most bytes of an example's name.
const NAME_ROOM: usize = 4096;

// One byte more than an example's text may have, so that a longer text is seen to be too long.
const SHEET_ROOM: usize = 65536;

// Writes a text that was written whole to the start of a buffer.
fn print_written<O: Print>(out: &O, written: Result<u64, NoRoom>, text: &[u8]) {
    if let Ok(n) = written {
        let length = buffers::within(n, text);
        let _ = out.write_all(&text[..length]);
    }
}

// Writes the report on a file.
fn print_report<O: Print>(out: &O, file: &[u8]) {
    let mut text = [0u8; TEXT_ROOM];
    let written = report::report(file, &mut text);
    print_written(out, written, &text);
}

// Writes the totals by portfolio of a file.
fn print_totals<O: Print>(out: &O, file: &[u8]) {
    let mut text = [0u8; TOTALS_ROOM];
    let written = report::portfolio_totals(file, &mut text);
    print_written(out, written, &text);
}

// Writes both texts of a file, the report and the totals by portfolio, which a refusal with 13 in the report does not
// keep back.
pub(crate) fn print_texts<O: Print>(out: &O, file: &[u8]) {
    print_report(out, file);
    print_totals(out, file);
}

// Writes both texts of a sheet's file and how it is converted; of an example of amendments what becomes of its opened
// pool.
fn print_file<O: Print>(out: &O, file: &[u8]) {
    if is_amended(file) {
        print_amended(out, file);
    } else {
        print_texts(out, file);
        print_file_converted(out, file);
    }
}

// Writes what is said of a sheet, or of a sheet and its amendments, that is written as a text.
fn print_sheet<O: Print>(out: &O, text: &[u8]) {
    let mut file = [0u8; BYTE_LIMIT];
    if let Ok(n) = sheet_text::sheet_bytes(text, &mut file) {
        let length = buffers::within(n, &file);
        print_file(out, &file[..length]);
    } else {
        let _ = println!(out; "no sheet");
    }
}

// Writes the name of an example, and what is said of it.
fn print_example<R: Env + Files + Input + Print, E: Print>(rt: &R, err: &E, i: usize) {
    let mut name = [0u8; NAME_ROOM];
    let length = rt.arg(i, &mut name).unwrap_or(0);
    let _ = rt.write_all(&name[..length]);
    let _ = println!(rt);
    let mut text = [0u8; SHEET_ROOM];
    let usage = b"usage: checked_examples FILE...\n";
    match reading::read_argument(rt, err, i, usage, &mut text) {
        Some(size) if size < SHEET_ROOM => print_sheet(rt, &text[..size]),
        Some(_) => {
            let _ = println!(rt; "too long");
        }
        None => {}
    }
}

// Writes every example that an argument names.
pub(crate) fn print_examples<R: Env + Files + Input + Print, E: Print>(rt: &R, err: &E) {
    for i in 1..usize::MAX {
        if !reading::has_argument(rt, i) {
            return;
        }
        print_example(rt, err, i);
    }
}
