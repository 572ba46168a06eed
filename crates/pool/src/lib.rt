// The pool of a deal sheet: its seven sums and those of each block of its rows, from the words of the sheet alone.
#![tactic(auto)]

ghost use Rattle.std.specs.Prelude.{true, ◌≡◌, ◌+◌, ◌≤◌, ◌<◌};
ghost use Rattle.limits.specs.SheetSize.{rows_most, row_size, block_size, blocks_most};
ghost use Rattle.judgement.specs.DealSheet.{word, row_at, exposure, nominal, weight_unit, risk_weight, status};
ghost use Rattle.pool.specs.PoolSums.{pool_sums};
ghost use Rattle.pool.specs.BlockSums.{block_sums, sum_words, sums_of};
ghost use Rattle.judgement.specs.Outcome.{numbers_of};
ghost use Rattle.pool.specs.SummedPool.{opened_numbers};
ghost use Rattle.pool.specs.SummedBlock.{block_numbers, numbers_by, sums_read};
ghost use Rattle.judgement.specs.Verdicts.{Refusal as NumberedRefusal};
ghost use Rattle.pool.specs.RowTotals.{totals_from, sums_from, marked_from, with_row, with_marked, totals_added, with_block, TotalsOfRows, MarkedOfRows, SumsOfRows, Subtotals};

mod pool_rows;

use charge::{Sums, Totals};
use judgement::{JudgedSheet, Refusal};
use limits::{BLOCK_SIZE, BLOCKS_MOST, ROW_SIZE};
use numbers::rounded_up;
use pool_rows::{Row, Rows};

// The words of seven sums.
pub const SUM_WORDS: usize = 7;

// What is marked of some rows: the totals of those of unknown status, and the nominal of the delinquent ones.
#[derive(Clone, Copy)]
struct Marked {
    unknown: Totals,
    late: u64,
}

// The hundredths of a percent that one unit of a risk weight word is: one of two figures, as its definition is.
fn weight_unit(hundredths: bool) -> u64
    ensures { result ≡ weight_unit hundredths }
{
    if hundredths { 1 } else { 100 }
}

impl Row<'_> {
    // A word of the row, by its column from 0.
    fn word(self, column: usize) -> u64
        requires { column < row_size }
        ensures { result ≡ word self.entry.sheet.now.words.now (row_at self.entry.sheet.now.words.now self.entry.number + column) }
    {
        let at = self.sheet.layout.first_row + ROW_SIZE * self.number as usize + column;
        self.sheet.words[at]
    }

    // The exposure amount.
    // Exposure, nominal and status are one line each, of a definition each.
    fn exposure(self) -> u64
        ensures { result ≡ exposure self.entry.sheet.now.words.now self.entry.number }
    {
        self.word(0)
    }

    // The nominal amount.
    fn nominal(self) -> u64
        ensures { result ≡ nominal self.entry.sheet.now.words.now self.entry.number }
    {
        self.word(1)
    }

    // The risk weight in hundredths of a percent, whatever the unit of its word.
    fn risk_weight(self) -> u64
        ensures { result ≡ risk_weight self.entry.sheet.now.words.now self.entry.number }
    {
        weight_unit(self.sheet.layout.hundredths) * self.word(2)
    }

    // The status.
    fn status(self) -> u64
        ensures { result ≡ status self.entry.sheet.now.words.now self.entry.number }
    {
        self.word(3)
    }
}

// Totals with a row added.
#[tactic(auto, using(crate::proofs::PoolLaws::row_limits))]
fn with_row(t: Totals, row: Row) -> Totals
    requires { TotalsOfRows t row.number }
    ensures { result ≡ with_row row.entry.sheet.now.words.now t row.entry.number }
{
    let exposure = row.exposure();
    Totals {
        exposure: t.exposure + exposure,
        nominal: t.nominal + row.nominal(),
        weighted: t.weighted + exposure * row.risk_weight(),
    }
}

// What is marked, with a row added: a row of status 2 is not known, one of status 1 is delinquent.
// The status stays the sheet's word, as in the definitions.
fn with_marked(m: Marked, row: Row) -> Marked
    requires { MarkedOfRows m row.number }
    ensures { result ≡ with_marked row.entry.sheet.now.words.now m row.entry.number }
{
    match row.status() {
        2 => Marked {
            unknown: with_row(m.unknown, row),
            late: m.late,
        },
        1 => Marked {
            unknown: m.unknown,
            late: m.late + row.nominal(),
        },
        _ => m,
    }
}

impl Rows<'_> {
    // The totals over the rows.
    fn totals(self) -> Totals
        ensures { result ≡ totals_from self.entry.sheet.now.words.now (λ i. true) self.entry.first self.entry.end }
    {
        let sheet = self.sheet;
        let mut t = Totals::NONE;
        for number in self.first..self.end {
            t = with_row(t, Row { sheet, number });
        }
        t
    }

    // What is marked of the rows.
    fn marked(self) -> Marked
        ensures { result ≡ marked_from self.entry.sheet.now.words.now self.entry.first self.entry.end }
    {
        let sheet = self.sheet;
        let mut m = Marked {
            unknown: Totals::NONE,
            late: 0,
        };
        for number in self.first..self.end {
            m = with_marked(m, Row { sheet, number });
        }
        m
    }

    // The seven sums over the rows. Rows of unknown status and delinquent rows are few, so a pass of their own, which
    // reads little of the other rows, is quicker than one pass for all seven sums.
    fn sums(self) -> Sums
        ensures { result ≡ sums_from self.entry.sheet.now.words.now self.entry.first self.entry.end }
    {
        let marked = self.marked();
        let all = self.totals();
        let unknown = marked.unknown;
        let known = Totals {
            exposure: all.exposure - unknown.exposure,
            nominal: all.nominal - unknown.nominal,
            weighted: all.weighted - unknown.weighted,
        };
        Sums {
            all,
            known,
            late: marked.late,
        }
    }
}

// The sums of block b, counted from 0.
#[tactic(auto, using(judgement::proofs::LayoutLaws::rows_is, crate::proofs::BlockLaws::block_made))]
fn block_of(sheet: &JudgedSheet, b: u64) -> Sums
    requires { b < blocks_most }
    ensures { result ≡ block_sums sheet.now.words.now b }
{
    let first = BLOCK_SIZE as u64 * b;
    let end = sheet.layout.rows.min(first + BLOCK_SIZE as u64);
    let block = Rows { sheet, first, end };
    block.sums()
}

// The sums of a block of any number: past the last there are no rows, and a number that no pool's block has is not
// multiplied.
#[tactic(auto, using(crate::proofs::BlockLaws::no_block))]
fn block_or_none(sheet: &JudgedSheet, b: u64) -> Sums
    ensures { result ≡ block_sums sheet.now.words.now b }
{
    if b < BLOCKS_MOST as u64 {
        block_of(sheet, b)
    } else {
        Sums::NONE
    }
}

// The sums of each of the first n blocks.
// An array, which is 02's form.
fn subtotals(sheet: &JudgedSheet, n: u64) -> [Sums; BLOCKS_MOST]
    requires { n ≤ blocks_most }
    ensures { Subtotals sheet.now.words.now n result }
{
    let mut each = [Sums::NONE; BLOCKS_MOST];
    for b in 0..n {
        each[b as usize] = block_of(sheet, b);
    }
    each
}

// The sum of two totals, of which the second is over the rows of a block. It is no `+` of `Totals`, since that would be
// a public promise of `charge`, with a condition for each caller to meet.
fn added(t: Totals, u: Totals) -> Totals
    requires { TotalsOfRows t rows_most × TotalsOfRows u block_size }
    ensures { result ≡ totals_added t u }
{
    Totals {
        exposure: t.exposure + u.exposure,
        nominal: t.nominal + u.nominal,
        weighted: t.weighted + u.weighted,
    }
}

// Seven sums with those of a block added.
fn with_block(q: Sums, block: Sums) -> Sums
    requires { SumsOfRows q rows_most × SumsOfRows block block_size }
    ensures { result ≡ with_block q block }
{
    Sums {
        all: added(q.all, block.all),
        known: added(q.known, block.known),
        late: q.late + block.late,
    }
}

// The pool's sums: per block of rows, then over the blocks.
fn over_blocks(sheet: &JudgedSheet) -> Sums
    ensures { result ≡ pool_sums sheet.now.words.now }
{
    let n = rounded_up(sheet.layout.rows, BLOCK_SIZE as u64);
    let each = subtotals(sheet, n);
    let mut q = Sums::NONE;
    for &block in &each[..n as usize] {
        q = with_block(q, block);
    }
    q
}

// The pool's sums. A pool of one block has that block's: an array for a single block would cost a small deal a fifth of
// its time.
#[tactic(auto, using(judgement::proofs::LayoutLaws::rows_is, crate::proofs::BlockLaws::one_block))]
fn pool_sums(sheet: &JudgedSheet) -> Sums
    ensures { result ≡ pool_sums sheet.now.words.now }
{
    if sheet.layout.rows <= BLOCK_SIZE as u64 {
        block_of(sheet, 0)
    } else {
        over_blocks(sheet)
    }
}

// Opens a sheet's pool: its seven sums; or the refusal that its words get. Neither the room for results nor the
// tranches' thickness is judged here. `numbers_of` gives 01's number and place of a refusal, and where there is none
// the sums.
pub fn open_pool(s: &[u64]) -> Result<Sums, Refusal>
    ensures { numbers_of result ≡ opened_numbers s.now }
{
    let sheet = JudgedSheet::judge(s)?;
    Ok(pool_sums(&sheet))
}

// The sums of a block of a sheet's pool, blocks counted from 0; or the refusal that the sheet's words get, whatever the
// block. Neither the room for results nor the tranches' thickness is judged here. `numbers_of` gives 01's number and
// place of a refusal, and where there is none the sums.
pub fn sum_block(s: &[u64], block: u64) -> Result<Sums, Refusal>
    ensures { numbers_of result ≡ block_numbers s.now block }
{
    let sheet = JudgedSheet::judge(s)?;
    Ok(block_or_none(&sheet, block))
}

// The sums that a block came to; where the sheet was refused they read 0, whatever says why: a reason, or any number.
pub fn sums_read<E: Drop>(block: Result<Sums, E>) -> Sums
    ensures { (refusal : E → NumberedRefusal) → result ≡ sums_read (numbers_by refusal block) }
{
    block.unwrap_or(Sums::NONE)
}

// Seven sums as words: exposure, nominal and weighted exposure over all rows, the same three over the rows with known
// status, and late nominal.
// Functions and no From, here and below: both are open by these names.
pub fn sum_words(q: Sums) -> [u64; SUM_WORDS]
    ensures { result ≡ sum_words q }
{
    [
        q.all.exposure,
        q.all.nominal,
        q.all.weighted,
        q.known.exposure,
        q.known.nominal,
        q.known.weighted,
        q.late,
    ]
}

// The sums that seven words say, in the same order.
pub fn sums_of(words: &[u64; SUM_WORDS]) -> Sums
    ensures { result ≡ sums_of words.now }
{
    let all = Totals {
        exposure: words[0],
        nominal: words[1],
        weighted: words[2],
    };
    let known = Totals {
        exposure: words[3],
        nominal: words[4],
        weighted: words[5],
    };
    Sums {
        all,
        known,
        late: words[6],
    }
}
