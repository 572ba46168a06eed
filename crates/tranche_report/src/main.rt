// Reads a deal sheet's file, and prints the report on it: the lines of its tranches, or the refusal. What fails is said
// on standard error.
#![tactic(auto)]

mod reading;

use std::rt::{Env, Files};

// A file is read into one byte more than a sheet has, so that a longer file is seen to be too long.
// The programs are alike in form: each has its own text, room and line for what fails.
fn main(rt: HostRuntime) {
    let mut file = [0u8; limits::BYTE_LIMIT + 1];
    print_named(&rt, &rt.stderr(), &mut file);
}

// Reads the file that the argument names, and writes the report on it.
fn print_named<R: Env + Files + Input + Print, E: Print>(rt: &R, err: &E, file: &mut [u8]) {
    let usage = b"usage: tranche_report FILE (- for standard input)\n";
    if let Some(size) = reading::read_named(rt, err, usage, file) {
        print_report(rt, err, &file[..size]);
    }
}

// Writes the report on a file to standard output; the buffer has room for every report.
fn print_report<O: Print, E: Print>(out: &O, err: &E, file: &[u8]) {
    let mut text = [0u8; report::TEXT_ROOM];
    match report::report(file, &mut text) {
        Ok(n) => reading::write_start(
            out,
            err,
            n,
            &text,
            b"tranche_report: standard output can't be written\n",
        ),
        Err(_) => {
            let _ = err.write_all(b"tranche_report: no room for the report\n");
        }
    }
}
