// What is not kept as a written sheet: results that are too short (14), files of a bad length (15), and the largest
// deals.
use crate::conversions::print_converted;
use crate::examples::print_texts;
use judgement::Refusal;
use limits::{
    BYTE_LIMIT, FACTS_MOST, LINE_SIZE, ROW_SIZE, ROWS_MOST, TRANCHE_SIZE, TRANCHES_MOST, WORD_LIMIT,
};

// A deal whose second tranche is too thin for the formula: 13 at place 22, where the results have room for three lines.
pub(crate) const THIN: [u64; 36] = [
    4, 0, 0, 1, 1, //
    2, 6000000, 6000000, 100, 0, 4000000, 4000000, 100, 0, //
    3, 8999991, 1, 60, 0, 1, 0, 0, 5, 2, 60, 5, 0, 0, 0, 1000004, 3, 60, 0, 0, 0, 0,
];

// The deal of 01's list, which is accepted where the results have room for three lines.
const CHECKED: [u64; 36] = [
    4, 0, 0, 1, 1, //
    2, 950, 950, 100, 0, 50, 50, 100, 1, //
    3, 800, 1, 72, 800, 1, 0, 0, 150, 2, 72, 100, 9, 0, 0, 50, 3, 72, 50, 0, 0, 0,
];

// Writes a line: a refusal.
pub(crate) fn print_refusal<O: Print>(out: &O, r: Refusal) {
    let _ = println!(out; "refused {} at {}", r.reason.number(), r.place);
}

// Writes a line: the name of a deal, how many words are lent to it, and the answer to it.
fn print_lent<O: Print>(out: &O, name: &str, sheet: &[u64], results: &mut [u64]) {
    let _ = print!(out; "{name}, results of {} words: ", results.len());
    match deal::weigh(sheet, results) {
        Ok(_) => {
            let _ = println!(out; "weighed");
        }
        Err(r) => print_refusal(out, r),
    }
}

// The words of three lines, and as many with one word fewer in each line.
const THREE_LINES: usize = 3 * LINE_SIZE;

const THREE_SHORT_LINES: usize = 3 * (LINE_SIZE - 1);

// Writes the answers to a deal of three tranches with a word too few for each line, with one too few in all, and with
// enough.
fn print_rooms<O: Print>(out: &O, name: &str, sheet: &[u64]) {
    let mut shorter = [0u64; THREE_SHORT_LINES];
    print_lent(out, name, sheet, &mut shorter);
    let mut short = [0u64; THREE_LINES - 1];
    print_lent(out, name, sheet, &mut short);
    let mut enough = [0u64; THREE_LINES];
    print_lent(out, name, sheet, &mut enough);
}

// With fewer words than its lines need a deal gets 14, which comes before 13; with all of them the thin deal gets 13
// and the other is weighed.
pub(crate) fn print_short_results<O: Print>(out: &O) {
    print_rooms(out, "thin tranche", &THIN);
    print_rooms(out, "checked deal", &CHECKED);
}

// Writes both texts of a file of that many bytes, all of them 0.
fn print_length<O: Print>(out: &O, n: u64) {
    let file = [0u8; BYTE_LIMIT + 8];
    let length = buffers::within(n, &file);
    let _ = print!(out; "file of zeros, bytes {n}: ");
    print_texts(out, &file[..length]);
}

// The empty file lacks its first word. Of the other lengths only that of the longest sheet gets past 15; a fact count
// of 0 is then the fault.
pub(crate) fn print_lengths<O: Print>(out: &O) {
    let longest = BYTE_LIMIT as u64;
    print_length(out, 0);
    print_length(out, 7);
    print_length(out, longest - 1);
    print_length(out, longest);
    print_length(out, longest + 1);
    print_length(out, longest + 8);
}

// The place of the pool's count in sheets with the most facts, and in the largest sheets that of the tranches' count.
pub(crate) const POOL_AT: usize = 1 + FACTS_MOST;

const TRANCHES_AT: usize = POOL_AT + 1 + ROW_SIZE * ROWS_MOST;

// The places of the first pool row, of the first tranche and of the IRB section's count.
pub(crate) const FIRST_ROW: usize = POOL_AT + 1;

const FIRST_TRANCHE: usize = TRANCHES_AT + 1;

const IRB_AT: usize = FIRST_TRANCHE + TRANCHE_SIZE * TRANCHES_MOST;

// A sheet with the most pool rows, equal ones of 10^10 and that risk weight.
fn with_rows(mut sheet: [u64; WORD_LIMIT], weight: u64) -> [u64; WORD_LIMIT] {
    sheet[POOL_AT] = ROWS_MOST as u64;
    for i in 0..ROWS_MOST {
        let at = FIRST_ROW + ROW_SIZE * i;
        sheet[at] = 10000000000;
        sheet[at + 1] = 10000000000;
        sheet[at + 2] = weight;
    }
    sheet
}

// A sheet with the most tranches, each 1/32 of the pool, in classes 1 to 32, held in full, unrated, of 1,200 months.
fn with_tranches(mut sheet: [u64; WORD_LIMIT]) -> [u64; WORD_LIMIT] {
    sheet[TRANCHES_AT] = TRANCHES_MOST as u64;
    for i in 0..TRANCHES_MOST {
        let at = FIRST_TRANCHE + TRANCHE_SIZE * i;
        sheet[at] = 312500000000;
        sheet[at + 1] = i as u64 + 1;
        sheet[at + 2] = 1200;
        sheet[at + 3] = 312500000000;
    }
    sheet
}

// A sheet with the IRB section: charge 200,000, loss 10^6, 10^6 loans, wholesale, that share, average 125,000.
fn with_irb_section(mut sheet: [u64; WORD_LIMIT], share: u64) -> [u64; WORD_LIMIT] {
    sheet[IRB_AT] = 1;
    sheet[IRB_AT + 1] = 200000;
    sheet[IRB_AT + 2] = 1000000;
    sheet[IRB_AT + 3] = 1000000;
    sheet[IRB_AT + 5] = share;
    sheet[IRB_AT + 6] = 125000;
    sheet
}

// Writes both texts of the largest deal, as many words as a sheet has, of a mixed pool with that risk weight of all
// rows in that unit, that STC mark and that share; and how it is converted.
pub(crate) fn print_largest<O: Print>(out: &O, weight: u64, unit: u64, stc: u64, share: u64) {
    let mut facts = [0u64; WORD_LIMIT];
    facts[0] = FACTS_MOST as u64;
    facts[1] = 2;
    facts[3] = 1;
    facts[4] = 1;
    facts[5] = stc;
    facts[7] = unit;
    let sheet = with_irb_section(with_tranches(with_rows(facts, weight)), share);
    let mut file = [0u8; BYTE_LIMIT];
    let _ = println!(out;
        "largest deal, risk weight {weight}, unit {unit}, STC mark {stc}, share {share}"
    );
    if files::store(&sheet, &mut file) {
        print_texts(out, &file);
    }
    print_converted(out, &sheet, true);
}
