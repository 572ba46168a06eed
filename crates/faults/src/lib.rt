// The fault of one word of a sheet, by its value and its column: the reason of its refusal, where it has one. Functions
// of numbers alone, open to all inputs. `fault_number` gives the reason's number in 01 or 02, and 0 where there is
// none.
#![tactic(auto)]

ghost use Rattle.std.specs.Prelude.{◌≡◌};
ghost use Rattle.faults.specs.Reasons.{number_of, fault_number};
ghost use Rattle.faults.specs.WordFaults.{unless, count_fault, code_fault, pool_kind_fault, stc_fault, reporting_date_fault, fact_fault, highest_weight_word, status_allowed, row_fault, row_is_good, class_in_order, maturity_fault, tranche_fault, share_allowed, irb_in_limits, irb_fault};

use dates::{maturity_allowed, maturity_months, names_day};
use numbers::within;

// Why a sheet is refused, by the numbers that 01 and 02 give the reasons.
#[derive(Clone, Copy, Debug, PartialEq, Eq)]
pub enum Reason {
    MissingWord = 1,
    Count = 2,
    WordsFollow = 3,
    Fact = 4,
    PoolAmount = 5,
    RiskWeight = 6,
    Status = 7,
    TrancheAmount = 8,
    Class = 9,
    Maturity = 10,
    Rating = 11,
    NoThickness = 13,
    NoRoom = 14,
    FileLength = 15,
    StcMark = 16,
    Date = 17,
    IrbFigure = 18,
    PartPercent = 19,
}

impl Reason {
    // The number of the reason in 01 or 02, as the number of an approach is that of its case.
    pub fn number(self) -> u64
        ensures { result ≡ number_of self }
    {
        self as u64
    }
}

// The limits of 01's amounts and maturities.
const POOL_AMOUNT: u64 = 10000000000;

const TRANCHE_AMOUNT: u64 = 10000000000000;

const MONTHS: u64 = 1200;

// 1250%, the highest risk weight, in each unit of its word.
const HIGHEST_PERCENT: u64 = 1250;

const HIGHEST_HUNDREDTHS: u64 = 125000;

// The limits of 02's shares, charges and losses, of its numbers of loans and of its average weights.
const MILLION: u64 = 1000000;

const AVERAGE_WEIGHT: u64 = 125000;

// A fault for that reason, unless the word is good.
fn unless(reason: Reason, good: bool) -> Result<(), Reason>
    ensures { fault_number result ≡ unless (number_of reason) good }
{
    if good { Ok(()) } else { Err(reason) }
}

// The fault of a count.
pub fn count_fault(least: u64, most: u64, w: u64) -> Result<(), Reason>
    ensures { fault_number result ≡ count_fault least most w }
{
    unless(Reason::Count, within(least, most, w))
}

// The fault of a fact that is a no or a yes.
fn code_fault(w: u64) -> Result<(), Reason>
    ensures { fault_number result ≡ code_fault w }
{
    unless(Reason::Fact, w <= 1)
}

// The fault of the pool kind, whose codes are one more: a rule of its own, as the definitions have it.
fn pool_kind_fault(w: u64) -> Result<(), Reason>
    ensures { fault_number result ≡ pool_kind_fault w }
{
    unless(Reason::Fact, w <= 2)
}

// The fault of the fifth fact: a re-securitisation has no STC mark.
fn stc_fault(resecuritised: bool, w: u64) -> Result<(), Reason>
    ensures { fault_number result ≡ stc_fault resecuritised w }
{
    if resecuritised && w == 1 {
        return Err(Reason::StcMark);
    }
    code_fault(w)
}

// The fault of the sixth fact, which is a day, or 0 where maturities are in months.
fn reporting_date_fault(w: u64) -> Result<(), Reason>
    ensures { fault_number result ≡ reporting_date_fault w }
{
    unless(Reason::Date, w == 0 || names_day(w))
}

// The fault of the fact at place p: the pool kind at 1, the STC mark at 5, the reporting date at 6, a yes or no
// elsewhere, and 0 or 1 for the unit of risk weights at 7.
pub fn fact_fault(resecuritised: bool, p: u64, w: u64) -> Result<(), Reason>
    ensures { fault_number result ≡ fact_fault resecuritised p w }
{
    match p {
        1 => pool_kind_fault(w),
        5 => stc_fault(resecuritised, w),
        6 => reporting_date_fault(w),
        _ => code_fault(w),
    }
}

// Whether a row may have this status. The status is asked before the deal's kind, which takes fewer steps in the loop
// over the rows.
fn status_allowed(resecuritised: bool, w: u64) -> bool
    ensures { result ≡ status_allowed resecuritised w }
{
    if w <= 2 {
        !resecuritised
    } else {
        w == 3 && resecuritised
    }
}

// The highest risk weight, as a word in the sheet's unit: one of two figures, as its definition is.
fn highest_weight(hundredths: bool) -> u64
    ensures { result ≡ highest_weight_word hundredths }
{
    if hundredths {
        HIGHEST_HUNDREDTHS
    } else {
        HIGHEST_PERCENT
    }
}

// The fault of a pool row's word, by its column; `hundredths` where risk weights are in hundredths of a percent. Column
// and word stay numbers, here and below: callers ask of any word of a sheet.
pub fn row_fault(resecuritised: bool, hundredths: bool, column: u64, w: u64) -> Result<(), Reason>
    ensures { fault_number result ≡ row_fault resecuritised hundredths column w }
{
    match column {
        0 | 1 => unless(Reason::PoolAmount, within(1, POOL_AMOUNT, w)),
        2 => unless(Reason::RiskWeight, w <= highest_weight(hundredths)),
        _ => unless(Reason::Status, status_allowed(resecuritised, w)),
    }
}

// Whether none of a pool row's four words has a fault, in one test for all four: most rows are good, and this is sooner
// told than each word's fault.
pub fn row_is_good(
    resecuritised: bool,
    hundredths: bool,
    exposure: u64,
    nominal: u64,
    weight: u64,
    status: u64,
) -> bool
    ensures { result ≡ row_is_good resecuritised hundredths exposure nominal weight status }
{
    within(1, POOL_AMOUNT, exposure)
        && within(1, POOL_AMOUNT, nominal)
        && weight <= highest_weight(hundredths)
        && status_allowed(resecuritised, status)
}

// Whether tranche i may have this class, after the class of the row before it.
fn class_in_order(i: u64, before: u64, w: u64) -> bool
    ensures { result ≡ class_in_order i before w }
{
    if i == 0 {
        w == 1
    } else {
        w == before || (w > 0 && w - 1 == before)
    }
}

// The fault of a maturity: with a reporting date the day is judged first, then the months that it gives.
fn maturity_fault(reporting_date: u64, w: u64) -> Result<(), Reason>
    ensures { fault_number result ≡ maturity_fault reporting_date w }
{
    unless(Reason::Date, maturity_allowed(reporting_date, w))?;
    unless(
        Reason::Maturity,
        within(1, MONTHS, maturity_months(reporting_date, w)),
    )
}

// The fault of a tranche row's word, by its column; the reporting date is 0 where maturities are in months.
pub fn tranche_fault(
    reporting_date: u64,
    i: u64,
    before: u64,
    amount: u64,
    column: u64,
    w: u64,
) -> Result<(), Reason>
    ensures { fault_number result ≡ tranche_fault reporting_date i before amount column w }
{
    match column {
        0 => unless(Reason::TrancheAmount, within(1, TRANCHE_AMOUNT, w)),
        1 => unless(Reason::Class, class_in_order(i, before, w)),
        2 => maturity_fault(reporting_date, w),
        3 => unless(Reason::TrancheAmount, w <= amount),
        _ => unless(Reason::Rating, rating_codes::is_listed(w)),
    }
}

// Whether a pool of this kind may have this share of exposure with an IRB charge: of an IRB pool, kind 1, it is the
// whole.
fn share_allowed(kind: u64, w: u64) -> bool
    ensures { result ≡ share_allowed kind w }
{
    if kind == 1 {
        w == MILLION
    } else {
        w <= MILLION
    }
}

// Whether a word of the IRB section is within its limits, by its column.
fn irb_in_limits(kind: u64, column: u64, w: u64) -> bool
    ensures { result ≡ irb_in_limits kind column w }
{
    match column {
        0 | 1 => w <= MILLION,
        2 => within(1, MILLION, w),
        3 => w <= 1,
        4 => share_allowed(kind, w),
        _ => w <= AVERAGE_WEIGHT,
    }
}

// The fault of a word of the IRB section, by its column. Its form is that of `count_fault`, its rule another.
pub fn irb_fault(kind: u64, column: u64, w: u64) -> Result<(), Reason>
    ensures { fault_number result ≡ irb_fault kind column w }
{
    unless(Reason::IrbFigure, irb_in_limits(kind, column, w))
}
