// The totals by portfolio: the sums of each block of a pool's rows, and those of the pool.
ghost use Rattle.std.specs.Prelude.{◌≡◌, ◌+◌, ◌*◌, ◌≤◌, ◌<◌};
ghost use Rattle.limits.specs.SheetSize.{blocks_most};
ghost use Rattle.judgement.specs.DealSheet.{rows};
ghost use Rattle.judgement.specs.Refusals.{words_verdict};
ghost use Rattle.judgement.specs.Verdicts.{Sound};
ghost use Rattle.pool.specs.BlockSums.{sum_words};
ghost use Rattle.pool.specs.SummedPool.{OpenPool};
ghost use Rattle.report.specs.ReportText.{words_line, spaced_room};
ghost use Rattle.report.specs.PortfolioText.{block_line, block_lines, pool_line, totals_text, totals_for, file_totals, totals_room};
ghost use Rattle.report.specs.BegunText.{behind};

use crate::lines::put_spaced;
use crate::text::Text;
use charge::Sums;
use faults::Reason;
use judgement::sheet::read_layout;
use judgement::{Layout, Refusal};
use limits::{BLOCK_SIZE, WORD_LIMIT};
use numbers::rounded_up;

// Writes a line of seven sums.
fn put_sums(q: Sums, text: &mut Text)
    requires { spaced_room 6 ≤ text.old.room }
    ensures { text.new ≡ behind text.old (words_line (sum_words q)) }
{
    let words = pool::sum_words(q);
    put_spaced(words[0], &words[1..], text);
}

// Writes the line of block b of a pool of n rows: its number, its first and its last row, from 1, and its sums.
fn put_block(n: u64, b: u64, q: Sums, text: &mut Text)
    requires { (b < blocks_most) × (spaced_room 9 ≤ text.old.room) }
    ensures { text.new ≡ behind text.old (block_line n b q) }
{
    let first = BLOCK_SIZE as u64 * b;
    let last = n.min(first + BLOCK_SIZE as u64);
    text.push_number(b, b' ');
    text.push_number(first + 1, b' ');
    text.push_number(last, b' ');
    put_sums(q, text);
}

// Writes the lines of the first k blocks of a sheet of n rows whose words are good.
// That the words are good stays a clause: sum_block takes any words and judges them anew.
fn put_blocks(sheet: &[u64], n: u64, k: u64, text: &mut Text)
    requires { (words_verdict sheet.now ≡ Sound) × (n ≡ rows sheet.now) × (k ≤ blocks_most) × (spaced_room 9 * k ≤ text.old.room) }
    ensures { text.new ≡ behind text.old (block_lines sheet.now k) }
{
    for b in 0..k {
        let block = pool::sum_block(sheet, b);
        put_block(n, b, pool::sums_read(block), text);
    }
}

// Writes the last line: the sums of the pool.
fn put_pool(q: Sums, text: &mut Text)
    requires { 6 + spaced_room 6 ≤ text.old.room }
    ensures { text.new ≡ behind text.old (pool_line q) }
{
    text.push_bytes(b"total ");
    put_sums(q, text);
}

// Writes the whole text of a sheet whose pool is opened.
fn put_totals(sheet: &[u64], l: Layout, sums: Sums, text: &mut Text)
    requires { OpenPool sheet.now l sums × (totals_room ≤ text.old.room) }
    ensures { text.new ≡ behind text.old (totals_text sheet.now) }
{
    let blocks = rounded_up(l.rows, BLOCK_SIZE as u64);
    put_blocks(sheet, l.rows, blocks, text);
    put_pool(sums, text);
}

// Writes the text of a sheet, or of the refusal that its words get.
fn put_sheet(sheet: &[u64], text: &mut Text)
    requires { totals_room ≤ text.old.room }
    ensures { text.new ≡ behind text.old (totals_for sheet.now (words_verdict sheet.now)) }
{
    match pool::open_pool(sheet) {
        Ok(sums) => put_totals(sheet, read_layout(sheet), sums, text),
        Err(r) => text.push_refusal(r),
    }
}

// Writes the text of a file.
pub(crate) fn put_file(file: &[u8], text: &mut Text)
    requires { totals_room ≤ text.old.room }
    ensures { text.new ≡ behind text.old (file_totals file.now) }
{
    let mut sheet = [0u64; WORD_LIMIT];
    if !files::load(file, &mut sheet) {
        return text.push_refusal(Refusal {
            reason: Reason::FileLength,
            place: 0,
        });
    }
    let words = file.len() / 8;
    put_sheet(&sheet[..words], text);
}
