// Sheets in the other unit of their risk weights: how each is converted, with room enough, with an exact fit, with a
// word too few and with words to spare.
use crate::edges::{THIN, print_refusal};
use limits::WORD_LIMIT;

// The smallest deal, of four facts and in whole percent: 18 words, and 21 in the other unit. The last word is one too
// many.
const PERCENT: [u64; 19] = [
    4, 0, 0, 1, 1, 1, 1000, 1000, 100, 0, 1, 1000, 1, 60, 1000, 0, 0, 0, 0,
];

// The smallest deal in hundredths of a percent: 37%.
const HUNDREDTHS: [u64; 21] = [
    7, 0, 0, 1, 1, 0, 0, 1, 1, 1000, 1000, 3700, 0, 1, 1000, 1, 60, 1000, 0, 0, 0,
];

// What the lent words are before a conversion, to show which of them are as they were.
const UNTOUCHED: u64 = 999;

// Writes a line: words, with a space before each.
pub(crate) fn print_words<O: Print>(out: &O, words: &[u64]) {
    for word in words {
        let _ = print!(out; " {word}");
    }
    let _ = println!(out);
}

// A checksum of words, in which the place of each counts.
fn checksum(words: &[u64]) -> u64 {
    words
        .iter()
        .fold(0, |sum, word| (31 * sum + word % 1000003) % 1000003)
}

// Writes a line: how many words were written to the start of the output, and they, or their checksum where they are
// many.
// The count stays beside the list: it comes as the answer of what wrote it.
fn print_written<O: Print>(out: &O, n: u64, output: &[u64], many: bool) {
    let length = buffers::within(n, output);
    let words = &output[..length];
    if many {
        let _ = println!(out; "converted {n}, checksum {}", checksum(words));
    } else {
        let _ = print!(out; "converted {n}:");
        print_words(out, words);
    }
}

// Writes a line: how a sheet is converted where there is room for every sheet.
pub(crate) fn print_converted<O: Print>(out: &O, sheet: &[u64], many: bool) {
    let mut output = [0u64; WORD_LIMIT];
    match conversion::convert(sheet, &mut output) {
        Ok(n) => print_written(out, n, &output, many),
        Err(r) => print_refusal(out, r),
    }
}

// The words of a sheet's file, and zeros after them.
pub(crate) fn words_of(file: &[u8]) -> [u64; WORD_LIMIT] {
    let mut words = [0u64; WORD_LIMIT];
    files::load(file, &mut words);
    words
}

// Writes a line: how the sheet of a file is converted.
pub(crate) fn print_file_converted<O: Print>(out: &O, file: &[u8]) {
    let words = words_of(file);
    let length = buffers::within(file.len() as u64 / 8, &words);
    print_converted(out, &words[..length], false);
}

// Writes the name of a sheet, how many words are lent for its conversion, the answer, and the lent words as they are
// after it.
fn print_lent<O: Print>(out: &O, name: &str, sheet: &[u64], output: &mut [u64]) {
    let _ = print!(out; "{name}, output of {} words: ", output.len());
    match conversion::convert(sheet, output) {
        Ok(n) => {
            let _ = println!(out; "converted {n}");
        }
        Err(r) => print_refusal(out, r),
    }
    let _ = print!(out; "output:");
    print_words(out, output);
}

// Writes how a sheet that needs 21 words is converted with none, with one too few, with an exact fit and with two to
// spare.
fn print_rooms<O: Print>(out: &O, name: &str, sheet: &[u64]) {
    let mut none = [UNTOUCHED; 23];
    print_lent(out, name, sheet, &mut none[..0]);
    let mut short = [UNTOUCHED; 23];
    print_lent(out, name, sheet, &mut short[..20]);
    let mut exact = [UNTOUCHED; 23];
    print_lent(out, name, sheet, &mut exact[..21]);
    let mut spare = [UNTOUCHED; 23];
    print_lent(out, name, sheet, &mut spare);
}

// Writes how a sheet of four facts, which needs more words than it has, is converted; 3 and the refusals of the words
// come before 14.
fn print_rooms_from_percent<O: Print>(out: &O) {
    print_rooms(out, "four facts", &PERCENT[..18]);
    print_rooms(out, "four facts, a word too many", &PERCENT);
    let mut bad = PERCENT;
    bad[8] = 1251;
    print_rooms(out, "four facts, risk weight 1251", &bad[..18]);
}

// Writes how a sheet in hundredths is converted; 19 comes before 14.
fn print_rooms_from_hundredths<O: Print>(out: &O) {
    print_rooms(out, "hundredths", &HUNDREDTHS);
    let mut uneven = HUNDREDTHS;
    uneven[11] = 12550;
    print_rooms(out, "hundredths, risk weight 12550", &uneven);
}

// Writes how sheets are converted with too few words, an exact fit and more; and the deal that 13 refuses where it is
// weighed, which no conversion gets.
pub(crate) fn print_outputs<O: Print>(out: &O) {
    print_rooms_from_percent(out);
    print_rooms_from_hundredths(out);
    let mut short = [UNTOUCHED; 39];
    print_lent(out, "thin tranche", &THIN, &mut short[..38]);
    let mut exact = [UNTOUCHED; 39];
    print_lent(out, "thin tranche", &THIN, &mut exact);
}
