// Totals by portfolio of pools whose rows all differ, so that a row in the wrong block shows, and the sums of single
// blocks, past the last one too.
ghost use Rattle.std.specs.Prelude.{◌≤◌, ◌<◌};
ghost use Rattle.limits.specs.SheetSize.{rows_most};
ghost use Rattle.buffers.specs.CountWithin.{HasBytes};

use crate::conversions::print_converted;
use crate::edges::{FIRST_ROW, POOL_AT, THIN, print_refusal};
use crate::examples::print_texts;
use charge::Sums;
use limits::{BYTE_LIMIT, FACTS_MOST, ROW_SIZE, ROWS_MOST, TRANCHE_SIZE, WORD_LIMIT};

// The exposure of row i, from 0. In an ordinary deal every third row is of unknown status, and these have so little
// that they stay below 5%.
fn exposure_of(i: u64) -> u64
    requires { i < rows_most }
{
    if i % 3 == 2 { i + 1 } else { 1000000 + i }
}

// The status of row i, from 0. As 50 is no multiple of 3, each status of an ordinary deal comes first in some block and
// last in another.
fn status_of(i: u64, resecuritisation: u64) -> u64 {
    if resecuritisation == 1 { 3 } else { i % 3 }
}

// The risk weight of row i, from 0, in that unit: in hundredths of a percent few are whole percents.
fn weight_of(i: u64, unit: u64) -> u64
    requires { i < rows_most }
{
    if unit == 1 { 125000 - 37 * i } else { 1250 - i }
}

// A sheet with the most pool rows, of which no two have an exposure, a nominal amount or a risk weight in common.
fn with_different_rows(
    mut sheet: [u64; WORD_LIMIT],
    resecuritisation: u64,
    unit: u64,
) -> [u64; WORD_LIMIT] {
    for i in 0..ROWS_MOST {
        let at = FIRST_ROW + ROW_SIZE * i;
        sheet[at] = exposure_of(i as u64);
        sheet[at + 1] = 2000000 + 3 * i as u64;
        sheet[at + 2] = weight_of(i as u64, unit);
        sheet[at + 3] = status_of(i as u64, resecuritisation);
    }
    sheet
}

// A sheet whose pool is so many of these rows, with one tranche of 10^6, of class 1, 60 months, held in full and rated
// below CCC-: in an ordinary deal the cap lowers its 1250% to the average of the pool. What follows the tranche is no
// part of the sheet.
fn different_sheet(rows: usize, resecuritisation: u64, unit: u64) -> [u64; WORD_LIMIT]
    requires { rows ≤ rows_most }
{
    let mut facts = [0u64; WORD_LIMIT];
    facts[0] = FACTS_MOST as u64;
    facts[2] = resecuritisation;
    facts[3] = 1;
    facts[4] = 1;
    facts[7] = unit;
    let mut sheet = with_different_rows(facts, resecuritisation, unit);
    sheet[POOL_AT] = rows as u64;
    let at = FIRST_ROW + ROW_SIZE * rows;
    sheet[at] = 1;
    sheet[at + 1] = 1000000;
    sheet[at + 2] = 1;
    sheet[at + 3] = 60;
    sheet[at + 4] = 1000000;
    sheet[at + 5] = 18;
    sheet[at + 6] = 0;
    sheet[at + 7] = 0;
    sheet
}

// How many words a sheet of so many different rows has, with so many more at its end. Promised: the lent list has so
// many (`HasBytes`, here of words), so that a caller can cut it there.
fn different_length(rows: usize, more: usize, sheet: &[u64]) -> usize
    requires { (rows ≤ rows_most) × (more ≤ 1) }
    ensures { HasBytes result sheet.now }
{
    buffers::within(
        (FIRST_ROW + ROW_SIZE * rows + 1 + TRANCHE_SIZE + more) as u64,
        sheet,
    )
}

// Writes both texts of a sheet of so many different rows, and how it is converted.
fn print_pool<O: Print>(out: &O, rows: usize, resecuritisation: u64, unit: u64)
    requires { rows ≤ rows_most }
{
    let sheet = different_sheet(rows, resecuritisation, unit);
    let length = different_length(rows, 0, &sheet);
    let mut file = [0u8; BYTE_LIMIT];
    let _ = println!(out;
        "different rows {rows}, re-securitisation {resecuritisation}, unit {unit}"
    );
    if files::store(&sheet[..length], &mut file) {
        let size = buffers::within(8 * length as u64, &file);
        print_texts(out, &file[..size]);
    }
    print_converted(out, &sheet[..length], true);
}

// Writes both texts of the smallest pool, of pools that end before, at and just past the end of a block, of the largest
// one, of one in a re-securitisation and of some in hundredths of a percent; and how each is converted.
pub(crate) fn print_pools<O: Print>(out: &O) {
    print_pool(out, 1, 0, 0);
    print_pool(out, 49, 0, 0);
    print_pool(out, 50, 0, 0);
    print_pool(out, 51, 0, 0);
    print_pool(out, 99, 0, 0);
    print_pool(out, 100, 0, 0);
    print_pool(out, 101, 0, 0);
    print_pool(out, 1000, 0, 0);
    print_pool(out, 101, 1, 0);
    print_pool(out, 1, 0, 1);
    print_pool(out, 101, 0, 1);
    print_pool(out, 1000, 0, 1);
}

// Writes a line: the seven sums of a block.
pub(crate) fn print_sums<O: Print>(out: &O, q: Sums) {
    let (all, known, late) = (q.all, q.known, q.late);
    let _ = println!(out;
        "{} {} {} {} {} {} {late}",
        all.exposure, all.nominal, all.weighted, known.exposure, known.nominal, known.weighted
    );
}

// Writes a line: the name of a sheet with its number of rows, the number of a block, and what a caller reads of it.
fn print_block<O: Print>(out: &O, name: &str, rows: u64, sheet: &[u64], block: u64) {
    let _ = print!(out; "{name}{rows}, block {block}: ");
    match pool::sum_block(sheet, block) {
        Ok(q) => print_sums(out, q),
        Err(r) => print_refusal(out, r),
    }
}

// Writes some blocks of a sheet.
fn print_blocks<O: Print>(out: &O, name: &str, rows: u64, sheet: &[u64]) {
    print_block(out, name, rows, sheet, 0);
    print_block(out, name, rows, sheet, 1);
    print_block(out, name, rows, sheet, 2);
    print_block(out, name, rows, sheet, 19); // the last of the largest pool
    print_block(out, name, rows, sheet, 20);
    print_block(out, name, rows, sheet, 4294967296); // 2^32, cut to 32 bits block 0
    print_block(out, name, rows, sheet, 368934881474191033); // times 50 it is 2^64 + 34, cut to 64 bits row 34
    print_block(out, name, rows, sheet, 9223372036854775808); // 2^63, times 50 and cut to 64 bits row 0
    print_block(out, name, rows, sheet, 18446744073709551615); // 2^64 - 1, whose end, cut to 64 bits, is row 0
}

// Writes some blocks of a sheet of so many different rows.
fn print_different<O: Print>(out: &O, name: &str, rows: usize, unit: u64)
    requires { rows ≤ rows_most }
{
    let sheet = different_sheet(rows, 0, unit);
    let length = different_length(rows, 0, &sheet);
    print_blocks(out, name, rows as u64, &sheet[..length]);
}

// Writes some blocks of two sheets of 51 different rows that are refused: with 3, and with 6 for the risk weight of the
// last row, which block 1 has alone.
fn print_refused<O: Print>(out: &O) {
    let longer = different_sheet(51, 0, 0);
    let length = different_length(51, 1, &longer);
    print_blocks(out, "a word too many, rows ", 51, &longer[..length]);
    let mut bad = longer;
    bad[FIRST_ROW + ROW_SIZE * 50 + 2] = 1251;
    let size = different_length(51, 0, &bad);
    print_blocks(out, "the last risk weight 1251, rows ", 51, &bad[..size]);
}

// Writes single blocks of accepted sheets, of refused ones, and of one that is refused where it is weighed, with 13,
// which no block gets.
pub(crate) fn print_single_blocks<O: Print>(out: &O) {
    print_different(out, "different rows ", 50, 0);
    print_different(out, "different rows ", 51, 0);
    print_different(out, "different rows ", 1000, 0);
    print_different(out, "hundredths, different rows ", 51, 1);
    print_different(out, "hundredths, different rows ", 1000, 1);
    print_refused(out);
    print_blocks(out, "thin tranche, rows ", 2, &THIN);
}
