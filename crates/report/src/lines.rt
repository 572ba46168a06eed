// The lines of an accepted deal, from the words of its results.
ghost use Rattle.std.specs.Prelude.{◌≡◌, ℕ, ◌+◌, ◌*◌, ◌≤◌, ◌<◌, length, get_or};
ghost use Rattle.limits.specs.SheetSize.{line_size, tranches_most};
ghost use Rattle.report.specs.ReportText.{spaced, tranche_line, tranche_lines, rwa_column, capital_column, column_sum, deal_text, spaced_room, text_room};
ghost use Rattle.report.specs.BegunText.{behind};

use crate::text::Text;
use deal::Weighed;
use limits::LINE_SIZE;

// The columns that the last line sums, among the words of a tranche's line, from 0.
const RWA_COLUMN: usize = 4;

const CAPITAL_COLUMN: usize = 5;

// Writes a line of numbers: n, and then the words, with single spaces between them. `next` is the number whose turn it
// is.
pub(crate) fn put_spaced(n: u64, words: &[u64], text: &mut Text)
    requires { spaced_room (length words.now) ≤ text.old.room }
    ensures { text.new ≡ behind text.old (spaced n words.now) }
{
    let mut next = n;
    for word in words {
        text.push_number(next, b' ');
        next = *word;
    }
    text.push_number(next, b'\n');
}

// Writes the line of tranche i: its number, from 1, then its words. Here and below the results stay one list with a
// number of lines: so they are lent to whoever weighs a sheet.
fn put_line(i: u64, results: &[u64], text: &mut Text)
    requires { (i < tranches_most) × (line_size * i + line_size ≤ length results.now) × (spaced_room line_size ≤ text.old.room) }
    ensures { text.new ≡ behind text.old (tranche_line results.now i) }
{
    let first = LINE_SIZE * i as usize;
    let after = first + LINE_SIZE;
    put_spaced(i + 1, &results[first..after], text);
}

// Writes the lines of the first n tranches.
fn put_lines(n: u64, results: &[u64], text: &mut Text)
    requires { (n ≤ tranches_most) × (line_size * n ≤ length results.now) × (spaced_room line_size * n ≤ text.old.room) }
    ensures { text.new ≡ behind text.old (tranche_lines results.now n) }
{
    for i in 0..n {
        put_line(i, results, text);
    }
}

// The sum of a column of the lines over the first n tranches, where none is above 1.25 × 10^14.
fn column_sum(results: &[u64], column: usize, n: u64) -> u64
    requires { (n ≤ tranches_most) × (column < line_size) × (line_size * n ≤ length results.now) × ((i : ℕ) → i < n → get_or results.now (line_size * i + column) 0 ≤ 125000000000000) }
    ensures { result ≡ column_sum results.now column n }
{
    let mut sum = 0;
    for i in 0..n {
        sum += results[LINE_SIZE * i as usize + column];
    }
    sum
}

// Writes the whole text of an accepted deal.
pub(crate) fn put_deal(weighed: Weighed, results: &[u64], text: &mut Text)
    requires { (weighed.count ≤ tranches_most) × (line_size * weighed.count ≤ length results.now) × (text_room ≤ text.old.room) × ((i c : ℕ) → i < weighed.count → rwa_column ≤ c → c ≤ capital_column → get_or results.now (line_size * i + c) 0 ≤ 125000000000000) }
    ensures { text.new ≡ behind text.old (deal_text weighed.charge weighed.count results.now) }
{
    let n = weighed.count;
    text.push_labelled(b"charge ", weighed.charge, b" tranches ", n);
    put_lines(n, results, text);
    let rwa = column_sum(results, RWA_COLUMN, n);
    let capital = column_sum(results, CAPITAL_COLUMN, n);
    text.push_labelled(b"total ", rwa, b" ", capital);
}
