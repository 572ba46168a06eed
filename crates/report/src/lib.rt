// The texts on a file: the bytes of a deal sheet's file in, the text that a desk reads out, the report on its tranches or its totals by portfolio.
#![tactic(auto)]

ghost use Rattle.std.specs.Prelude.{◌≡◌, ◌≤◌, length};
ghost use Rattle.report.specs.ReportText.{refusal_line, file_text, written_for, text_after, text_room, refusal_room};
ghost use Rattle.report.specs.PortfolioText.{file_totals, totals_room};
ghost use Rattle.report.specs.BegunText.{behind};

mod lines;
mod text;
mod totals;

use crate::text::Text;
use limits::{BLOCKS_MOST, LINE_SIZE, RESULT_ROOM, TRANCHES_MOST};

// The most digits of a number, and those of two with a byte after the second.
const DIGITS_MOST: usize = 20;

const TWO_NUMBERS: usize = DIGITS_MOST + DIGITS_MOST + 1;

// The most bytes of a tranche's line: its number and its words, with a byte after each.
const LINE_ROOM: usize = (DIGITS_MOST + 1) * (1 + LINE_SIZE);

// Bytes that hold every text: the first line, whose labels have 17 bytes, a line for each tranche, and the last line, whose labels have 7.
pub const TEXT_ROOM: usize = 17 + TWO_NUMBERS + LINE_ROOM * TRANCHES_MOST + 7 + TWO_NUMBERS;

// Bytes that hold every text of totals: a line of ten numbers for each block, and a last line of seven, whose label has 6 bytes.
pub const TOTALS_ROOM: usize = (DIGITS_MOST + 1) * 10 * BLOCKS_MOST + 6 + (DIGITS_MOST + 1) * 7;

// Bytes that hold the line of every refusal, whose labels have 12.
pub const REFUSAL_ROOM: usize = 12 + TWO_NUMBERS;

// Why a text was not written: the buffer has no room for its length.
#[derive(Clone, Copy, Debug, PartialEq, Eq)]
pub struct NoRoom {
    pub needed: u64,
}

// Writes the text of a file.
fn put_file(file: &[u8], text: &mut Text)
    requires { text_room ≤ text.old.room }
    ensures { text.new ≡ behind text.old (file_text file.now) }
{
    let mut results = [0u64; RESULT_ROOM];
    match deal_file::weigh_file(file, &mut results) {
        Ok(weighed) => lines::put_deal(weighed, &results, text),
        Err(r) => text.push_refusal(r),
    }
}

// Writes the report's text on a file to the start of a lent buffer, later bytes untouched; where there is no room for all
// of it, nothing is written. There is room in a buffer of TEXT_ROOM bytes, whatever the file.
pub fn report(file: &[u8], text: &mut [u8]) -> Result<u64, NoRoom>
    ensures value { result ≡ written_for (file_text file.now) text.old }
    ensures text_after { text.new ≡ text_after (file_text file.now) text.old }
    ensures file_len_bound { length (file_text file.now) ≤ text_room }
{
    let mut buffer = [0u8; TEXT_ROOM];
    let mut whole = Text::new(&mut buffer);
    put_file(file, &mut whole);
    whole.copy_to(text)
}

// The same for the totals by portfolio of a file's sheet. This function and the next keep the form of `report`: one over
// the room and what is written would have to promise of any closure what text it writes, and be no shorter. There is room in a buffer of TOTALS_ROOM bytes, whatever the
// file.
pub fn portfolio_totals(file: &[u8], text: &mut [u8]) -> Result<u64, NoRoom>
    ensures value { result ≡ written_for (file_totals file.now) text.old }
    ensures text_after { text.new ≡ text_after (file_totals file.now) text.old }
    ensures file_len_bound { length (file_totals file.now) ≤ totals_room }
{
    let mut buffer = [0u8; TOTALS_ROOM];
    let mut whole = Text::new(&mut buffer);
    totals::put_file(file, &mut whole);
    whole.copy_to(text)
}

// The same for the line of a refusal, which a program prints where a file is not converted. There is room in a buffer of
// REFUSAL_ROOM bytes.
// It takes a number and no Reason: its promise is of every number.
pub fn refusal_line(number: u64, place: u64, text: &mut [u8]) -> Result<u64, NoRoom>
    ensures value { result ≡ written_for (refusal_line number place) text.old }
    ensures text_after { text.new ≡ text_after (refusal_line number place) text.old }
    ensures place_len_bound { length (refusal_line number place) ≤ refusal_room }
{
    let mut buffer = [0u8; REFUSAL_ROOM];
    let mut whole = Text::new(&mut buffer);
    whole.push_labelled(b"refused ", number, b" at ", place);
    whole.copy_to(text)
}
