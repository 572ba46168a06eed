// Reads a deal sheet's file, and prints its totals by portfolio: the sums of each block of the pool's rows and those of
// the pool, or the refusal. What fails is said on standard error.
#![tactic(auto)]

mod reading;

use std::rt::{Env, Files};

// A file is read into one byte more than a sheet has, so that a longer file is seen to be too long.
// The programs are alike in form: each has its own text, room and line for what fails.
fn main(rt: HostRuntime) {
    let mut file = [0u8; limits::BYTE_LIMIT + 1];
    print_named(&rt, &rt.stderr(), &mut file);
}

// Reads the file that the argument names, and writes its totals.
fn print_named<R: Env + Files + Input + Print, E: Print>(rt: &R, err: &E, file: &mut [u8]) {
    let usage = b"usage: portfolio_totals FILE (- for standard input)\n";
    if let Some(size) = reading::read_named(rt, err, usage, file) {
        print_totals(rt, err, &file[..size]);
    }
}

// Writes the totals of a file to standard output; the buffer has room for those of every file.
fn print_totals<O: Print, E: Print>(out: &O, err: &E, file: &[u8]) {
    let mut text = [0u8; report::TOTALS_ROOM];
    match report::portfolio_totals(file, &mut text) {
        Ok(n) => reading::write_start(
            out,
            err,
            n,
            &text,
            b"portfolio_totals: standard output can't be written\n",
        ),
        Err(_) => {
            let _ = err.write_all(b"portfolio_totals: no room for the totals\n");
        }
    }
}
