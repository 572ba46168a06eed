// A pool that is amended: an opened pool is a sheet with its seven sums, and an amendment replaces one row of it and
// corrects the sums.
#![tactic(auto)]

ghost use Rattle.std.specs.Prelude.{◌≡◌, ◌+◌, ◌*◌, ◌≤◌, length, drop};
ghost use Rattle.std.proofs.lemmas.List.Edits.{sets};
ghost use Rattle.judgement.specs.DealSheet.{word, weight_unit};
ghost use Rattle.pool.specs.SummedPool.{OpenedPool};
ghost use Rattle.faults.specs.Reasons.{fault_number};
ghost use Rattle.judgement.specs.Verdicts.{verdict_of};
ghost use Rattle.amendment.specs.AmendmentAnswer.{verdict_on, sums_after};
ghost use Rattle.amendment.specs.Amendment.{AmendedPool, amendment_fault, amendment_judged, amended_sheet};
ghost use Rattle.amendment.specs.OpenedPool.{Tells};
ghost use Rattle.amendment.specs.RowPart.{row_part, part_at, RowLimits, totals_exchanged, exchanged, TotalsExchange, Exchange, Replaceable};

use charge::{Sums, Totals};
use faults::{Reason, count_fault, row_fault};
use judgement::sheet::{in_hundredths, word_at};
use judgement::{Refusal, judge_word};
use limits::ROW_SIZE;

// The words of an amendment: a row's number, and the row.
pub const AMENDMENT_SIZE: usize = 5;

// What of a sheet an amendment is judged by: the kind of deal, the unit of risk weights and the number of rows.
#[derive(Clone, Copy)]
struct Rules {
    resecuritised: bool,
    hundredths: bool,
    rows: u64,
}

impl Rules {
    // The fault of a word of an amendment, by its place from 0: of the row's number, and of the row's words as on
    // loading.
    fn fault(self, p: u64, w: u64) -> Result<(), Reason>
        ensures { fault_number result ≡ amendment_fault self.resecuritised self.hundredths self.rows p w }
    {
        if p == 0 {
            return count_fault(1, self.rows, w);
        }
        row_fault(self.resecuritised, self.hundredths, p - 1, w)
    }

    // Judges an amendment: the first bad or missing word of the five, then words that follow.
    fn judge(self, m: &[u64]) -> Result<(), Refusal>
        ensures { verdict_of result ≡ amendment_judged self.resecuritised self.hundredths self.rows m.now }
    {
        for p in 0..AMENDMENT_SIZE as u64 {
            judge_word(m, p, self.fault(p, word_at(m, p)))?;
        }
        if AMENDMENT_SIZE < m.len() {
            return Err(Refusal {
                reason: Reason::WordsFollow,
                place: AMENDMENT_SIZE as u64,
            });
        }
        Ok(())
    }
}

// A risk weight in hundredths of a percent, from its word.
fn risk_weight(hundredths: bool, weight: u64) -> u64
    requires { weight_unit hundredths * weight ≤ 125000 }
    ensures { result ≡ weight_unit hundredths * weight }
{
    if hundredths { weight } else { 100 * weight }
}

// A row's part of the seven sums: a row of status 2 is not known, one of status 1 is delinquent.
// The status stays the sheet's word, as in the definitions.
fn row_part(hundredths: bool, exposure: u64, nominal: u64, weight: u64, status: u64) -> Sums
    requires { RowLimits hundredths exposure nominal weight }
    ensures { result ≡ row_part hundredths exposure nominal weight status }
{
    let all = Totals {
        exposure,
        nominal,
        weighted: exposure * risk_weight(hundredths, weight),
    };
    let (known, late) = match status {
        2 => (Totals::NONE, 0),
        1 => (all, nominal),
        _ => (all, 0),
    };
    Sums { all, known, late }
}

// The part of the row that stands at a place.
// The place stays beside the sheet, here and in the two below: the definitions are of a sheet and a place.
fn part_at(s: &[u64], hundredths: bool, at: usize) -> Sums
    requires { (at + 4 ≤ length s.now) × RowLimits hundredths (word s.now at) (word s.now (at + 1)) (word s.now (at + 2)) }
    ensures { result ≡ part_at s.now hundredths at }
{
    row_part(hundredths, s[at], s[at + 1], s[at + 2], s[at + 3])
}

// Totals with an old part taken away and a new one added. It is no `-` and `+` of `Totals`, since these would be public
// promises of `charge`, with a condition for each caller to meet.
fn totals_exchanged(t: Totals, old: Totals, new: Totals) -> Totals
    requires { TotalsExchange t old new }
    ensures { result ≡ totals_exchanged t old new }
{
    Totals {
        exposure: t.exposure - old.exposure + new.exposure,
        nominal: t.nominal - old.nominal + new.nominal,
        weighted: t.weighted - old.weighted + new.weighted,
    }
}

// The seven sums with an old part taken away and a new one added.
fn sums_exchanged(q: Sums, old: Sums, new: Sums) -> Sums
    requires { Exchange q old new }
    ensures { result ≡ exchanged q old new }
{
    Sums {
        all: totals_exchanged(q.all, old.all, new.all),
        known: totals_exchanged(q.known, old.known, new.known),
        late: q.late - old.late + new.late,
    }
}

// Writes the row of an amendment to a place of the sheet, word by word: a caller has just written the words one by one,
// and a copy of all four would wait for them. A column is a place in both lists.
fn put_row(sheet: &mut [u64], at: usize, m: &[u64])
    requires { (at + 4 ≤ length sheet.old) × (length m.now ≡ 5) }
    ensures { sheet.new ≡ sets sheet.old at (drop 1 m.now) }
{
    for column in 0..ROW_SIZE {
        sheet[at + column] = m[1 + column];
    }
}

// Replaces a row by a good amendment, and gives the sums after it.
fn replace_row(sheet: &mut [u64], sums: Sums, hundredths: bool, at: usize, m: &[u64]) -> Sums
    requires { Replaceable sheet.old sums hundredths at m.now }
    ensures { (sheet.new ≡ amended_sheet sheet.old m.now) × OpenedPool sheet.new result }
{
    let old = part_at(sheet, hundredths, at);
    put_row(sheet, at, m);
    let new = part_at(sheet, hundredths, at);
    sums_exchanged(sums, old, new)
}

// Whether a sheet and seven sums are an opened pool, which the calls on one require: the sheet's words are good, and
// the sums are those of its rows.
pub fn is_opened(sheet: &[u64], sums: Sums) -> bool
    ensures { Tells result (OpenedPool sheet.now sums) }
{
    pool::open_pool(sheet) == Ok(sums)
}

// Amends an opened pool, whose sums go in by value; the answer is the sums after it, or the refusal of the amendment,
// which changes nothing. What it is judged by is read of the sheet. Sheet and sums stay apart and are required to be an
// opened pool, here and in `deal`: both are the caller's, in C as well.
pub fn amend_rows(sheet: &mut [u64], sums: Sums, amendment: &[u64]) -> Result<Sums, Refusal>
    requires { OpenedPool sheet.old sums }
    ensures { AmendedPool sheet.old amendment.now sheet.new (verdict_on result) (sums_after sums result) }
{
    let pool = 1 + word_at(sheet, 0);
    let rows = word_at(sheet, pool);
    let resecuritised = word_at(sheet, 2) == 1;
    let hundredths = in_hundredths(sheet);
    let rules = Rules {
        resecuritised,
        hundredths,
        rows,
    };
    rules.judge(amendment)?;
    let at = pool as usize + 1 + ROW_SIZE * (amendment[0] - 1) as usize;
    Ok(replace_row(sheet, sums, hundredths, at, amendment))
}

// Amends an opened pool in place: the sheet and its seven sums, both lent. A refused amendment changes nothing.
pub fn amend(sheet: &mut [u64], sums: &mut Sums, amendment: &[u64]) -> Result<(), Refusal>
    requires { OpenedPool sheet.old sums.old }
    ensures { AmendedPool sheet.old amendment.now sheet.new (verdict_of result) sums.new }
{
    *sums = amend_rows(sheet, *sums, amendment)?;
    Ok(())
}
