// Prints the decay table that banks check by hand: one `n value` to a line, for n from 0 to 354.
#![tactic(auto)]

// Writes one line, and answers whether all of it was written.
fn print_line<O: Print>(out: &O, n: u64) -> bool {
    let entry = formula::decay_entry(n);
    println!(out; "{n} {entry}").is_ok()
}

// Prints every line; where one can't be written, says so on standard error and stops.
fn main(rt: HostRuntime) {
    for n in 0..355 {
        if !print_line(&rt, n) {
            let _ = eprintln!(rt; "decay_table: standard output can't be written");
            return;
        }
    }
}
