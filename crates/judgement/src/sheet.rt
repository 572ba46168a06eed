// Where the words of a sheet stand. A place is worked out only once the counts before it are good, or are at least
// within their limits. Open to other crates are `word_at`, `in_hundredths` and `read_layout`, which take any words.
ghost use Rattle.std.specs.Prelude.{◌≡◌, ◌+◌, ◌≤◌, ◌<◌};
ghost use Rattle.limits.specs.SheetSize.{irb_size, place_limit};
ghost use Rattle.judgement.specs.DealSheet.{word, fact, in_hundredths, pool_at, rows, row_at, tranches_at, tranche_count, tranche_at, irb_at, irb_place, irb_figures, needed, layout};
ghost use Rattle.judgement.specs.ReadLayout.{layout_read};
ghost use Rattle.judgement.specs.Refusals.{judged};
ghost use Rattle.judgement.specs.Verdicts.{Sound};

use crate::Layout;
use crate::counted::CountedTranches;
use irba::IrbFigures;
use limits::{FACTS_MOST, IRB_ROWS, IRB_SIZE, ROW_SIZE, ROWS_MOST, TRANCHE_SIZE, TRANCHES_MOST};

// The word at a place; 0 past the end.
pub fn word_at(s: &[u64], p: u64) -> u64
    ensures { result ≡ word s.now p }
{
    s.get(p as usize).copied().unwrap_or(0)
}

// Fact n, which not every sheet has; 0 where the list of facts is shorter.
pub(crate) fn fact_at(s: &[u64], n: u64) -> u64
    ensures { result ≡ fact s.now n }
{
    if n <= word_at(s, 0) { word_at(s, n) } else { 0 }
}

// Whether risk weights are in hundredths of a percent, which the seventh fact says.
pub fn in_hundredths(s: &[u64]) -> bool
    ensures { result ≡ in_hundredths s.now }
{
    fact_at(s, 7) == 1
}

// The place of the pool's count. This and the next ask for a good first word by a clause: a type for two would say no
// more.
pub(crate) fn pool_at(s: &[u64]) -> u64
    requires { judged s.now 1 ≡ Sound }
    ensures { result ≡ pool_at s.now }
{
    1 + word_at(s, 0)
}

// The number of pool rows.
pub(crate) fn row_count(s: &[u64]) -> u64
    requires { judged s.now 1 ≡ Sound }
    ensures { result ≡ rows s.now }
{
    word_at(s, pool_at(s))
}

// A word of the IRB section's row, by its column from 0, where the section's count is at that place.
// The place is handed in, here and below: the two readers of a layout find it in two ways.
fn irb_word(s: &[u64], at: u64, column: u64) -> u64
    requires { (at ≡ irb_at s.now) × (at ≤ place_limit) × (column < irb_size) }
    ensures { result ≡ word s.now (irb_place s.now column) }
{
    word_at(s, at + 1 + column)
}

// The figures of the IRB section, whose count is at that place; zeros where the sheet has none.
fn irb_figures(s: &[u64], at: u64) -> IrbFigures
    requires { (at ≡ irb_at s.now) × (at ≤ place_limit) }
    ensures { result ≡ irb_figures s.now }
{
    if word_at(s, 1) == 0 {
        return IrbFigures::NONE;
    }
    IrbFigures {
        charge: irb_word(s, at, 0),
        loss: irb_word(s, at, 1),
        loans: irb_word(s, at, 2),
        retail: irb_word(s, at, 3) == 1,
        share: irb_word(s, at, 4),
        average: irb_word(s, at, 5),
    }
}

// What is read of a sheet whose words are good. Each word that every sheet has is there, so it is read where it stands.
// It stays beside `read_layout`, which reads the same of any words: with one function for both a small deal is slower.
// Its clause stays: it has one caller, judge_words.
pub(crate) fn layout_of(s: &[u64]) -> Layout
    requires { judged s.now (needed s.now) ≡ Sound }
    ensures { result ≡ layout s.now }
{
    let pool = (1 + s[0]) as usize;
    let rows = s[pool];
    let tranches = pool + 1 + ROW_SIZE * rows as usize;
    let counted = CountedTranches { words: s };
    Layout {
        kind: s[1],
        resecuritisation: s[2] == 1,
        stc: fact_at(s, 5) == 1,
        diligence: s[3] == 1,
        composition: s[4] == 1,
        reporting_date: fact_at(s, 6),
        hundredths: in_hundredths(s),
        first_row: pool + 1,
        rows,
        first_tranche: tranches + 1,
        tranches: s[tranches],
        irb: irb_figures(s, counted.irb_at()),
    }
}

// What is read of a sheet whose words are not judged: nothing where a count is above its limit, for then no place
// behind it is known. Of a sheet whose words are good it is what `layout_of` reads.
pub fn read_layout(s: &[u64]) -> Layout
    ensures { result ≡ layout_read s.now }
{
    let facts = word_at(s, 0);
    if (FACTS_MOST as u64) < facts {
        return Layout::NONE;
    }
    let pool = 1 + facts;
    let rows = word_at(s, pool);
    if (ROWS_MOST as u64) < rows {
        return Layout::NONE;
    }
    let count = pool + 1 + ROW_SIZE as u64 * rows;
    let tranches = word_at(s, count);
    if (TRANCHES_MOST as u64) < tranches {
        return Layout::NONE;
    }
    Layout {
        kind: word_at(s, 1),
        resecuritisation: word_at(s, 2) == 1,
        stc: fact_at(s, 5) == 1,
        diligence: word_at(s, 3) == 1,
        composition: word_at(s, 4) == 1,
        reporting_date: fact_at(s, 6),
        hundredths: in_hundredths(s),
        first_row: (pool + 1) as usize,
        rows,
        first_tranche: (count + 1) as usize,
        tranches,
        irb: irb_figures(s, count + 1 + TRANCHE_SIZE as u64 * tranches),
    }
}
