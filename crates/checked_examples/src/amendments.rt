// Opened pools and their amendments. An example of them is a list of words too: 0, which is no sheet's number of facts;
// the number of a sheet's words, and the sheet; then each amendment as the number of its words, and the words.
ghost use Rattle.std.specs.Prelude.{◌≤◌, ◌<◌, length};
ghost use Rattle.pool.specs.SummedPool.{OpenedPool};

use crate::blocks::print_sums;
use crate::conversions::{print_words, words_of};
use crate::edges::print_refusal;
use charge::Sums;
use judgement::Refusal;
use limits::{LINE_SIZE, RESULT_ROOM};

// Writes a line for each of so many tranches: its number, from 1, and its words.
// The count stays beside the list: it comes as the answer of what wrote it.
fn print_lines<O: Print>(out: &O, count: u64, results: &[u64]) {
    for (number, line) in (1..=count).zip(results.chunks_exact(LINE_SIZE)) {
        let _ = print!(out; "{number}");
        print_words(out, line);
    }
}

// Writes what is read of an opened pool: its seven sums, its charge, and the lines of its tranches or 13.
// Sheet and sums are two, here and in print_run, as deal and amendment take them.
fn print_pool<O: Print>(out: &O, sheet: &[u64], sums: Sums)
    requires { OpenedPool sheet.now sums }
{
    let _ = print!(out; "sums ");
    print_sums(out, sums);
    let words = pool::sum_words(sums);
    let _ = println!(out; "charge {}", deal::opened_charge(sheet, &words));
    let mut results = [0u64; RESULT_ROOM];
    match deal::weigh_opened(sheet, &words, &mut results) {
        Ok(weighed) => print_lines(out, weighed.count, &results),
        Err(r) => print_refusal(out, r),
    }
}

// Writes a line: the number of an amendment, from 1, and what became of it.
fn print_verdict<O: Print>(out: &O, number: u64, verdict: Result<(), Refusal>) {
    let _ = print!(out; "amendment {number}: ");
    match verdict {
        Ok(()) => {
            let _ = println!(out; "row replaced");
        }
        Err(r) => print_refusal(out, r),
    }
}

// The end of the words that follow their number, which is a list's first: the list's end where it has fewer.
fn end_of_part(words: &[u64]) -> usize
    requires { 0 < length words.now }
    ensures { (0 < result) × (result ≤ length words.now) }
{
    1 + words[0].min(words.len() as u64 - 1) as usize
}

// Amends an opened pool by each amendment of a list, and writes what became of it and what the pool then is, which a
// refused one leaves as it was.
fn print_run<O: Print>(out: &O, sheet: &mut [u64], opened: Sums, list: &[u64])
    requires { OpenedPool sheet.old opened }
{
    let mut sums = opened;
    let mut number = 0;
    let mut left = list;
    // A `while`: how many words a turn takes stands in the list.
    while !left.is_empty() {
        let end = end_of_part(left);
        let verdict = amendment::amend(sheet, &mut sums, &left[1..end]);
        number += 1;
        print_verdict(out, number, verdict);
        print_pool(out, sheet, sums);
        left = &left[end..];
    }
}

// Opens a sheet, and writes what its pool is and what becomes of it by each amendment of a list; or the refusal.
fn print_opening<O: Print>(out: &O, sheet: &mut [u64], list: &[u64]) {
    match pool::open_pool(sheet) {
        Ok(sums) => {
            let _ = println!(out; "opened");
            print_pool(out, sheet, sums);
            print_run(out, sheet, sums, list);
        }
        Err(r) => print_refusal(out, r),
    }
}

// Whether a file is an example of amendments.
pub(crate) fn is_amended(file: &[u8]) -> bool {
    !file.is_empty() && words_of(file)[0] == 0
}

// Writes what becomes of the opened pool of such a file.
pub(crate) fn print_amended<O: Print>(out: &O, file: &[u8]) {
    let words = words_of(file);
    let length = buffers::within(file.len() as u64 / 8, &words);
    if length < 2 {
        return;
    }
    let end = 1 + end_of_part(&words[1..length]);
    let mut sheet = words;
    print_opening(out, &mut sheet[2..end], &words[end..length]);
}
