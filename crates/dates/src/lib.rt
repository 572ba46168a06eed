// Days as words of a sheet, and the months between two of them. Functions of numbers alone; the open ones take any
// numbers.
#![tactic(auto)]

ghost use Rattle.std.specs.Prelude.{◌≡◌, ◌≤◌};
ghost use Rattle.dates.specs.Calendar.{year_of, month_of, day_of, leap_year, days_of_month, names_day};
ghost use Rattle.dates.specs.Maturity.{month_count, months_between, maturity_months, maturity_allowed};

use numbers::within;

// The years of S-3's dates.
const FIRST_YEAR: u64 = 2000;

const LAST_YEAR: u64 = 2199;

// The days of each month, January to December, in a year that is no leap year. As bytes, since a constant is written to
// memory at each use.
const MONTH_LENGTHS: [u8; 12] = [31, 28, 31, 30, 31, 30, 31, 31, 30, 31, 30, 31];

// The year of a word that is read as a date.
fn year_of(w: u64) -> u64
    ensures { result ≡ year_of w }
{
    w / 10000
}

// Its month.
fn month_of(w: u64) -> u64
    ensures { result ≡ month_of w }
{
    w / 100 % 100
}

// Its day of the month.
fn day_of(w: u64) -> u64
    ensures { result ≡ day_of w }
{
    w % 100
}

// Whether a year of the Gregorian calendar is a leap year.
fn is_leap_year(year: u64) -> bool
    ensures { result ≡ leap_year year }
{
    year % 4 == 0 && (year % 100 != 0 || year % 400 == 0)
}

// The days of a month, counted from 1.
fn days_of_month(year: u64, month: u64) -> u64
    requires { (1 ≤ month) × (month ≤ 12) }
    ensures { result ≡ days_of_month year month }
{
    if month == 2 && is_leap_year(year) {
        29
    } else {
        u64::from(MONTH_LENGTHS[(month - 1) as usize])
    }
}

// Whether a word names a day of the years 2000 to 2199.
#[tactic(auto, unfolding(crate::specs::Calendar::names_day))]
pub fn names_day(w: u64) -> bool
    ensures { result ≡ names_day w }
{
    let year = year_of(w);
    let month = month_of(w);
    within(FIRST_YEAR, LAST_YEAR, year)
        && within(1, 12, month)
        && within(1, days_of_month(year, month), day_of(w))
}

// The month of a word's day, counted through the years. No word is too large: its year is a ten-thousandth of it.
fn month_count(w: u64) -> u64
    ensures { result ≡ month_count w }
{
    12 * year_of(w) + month_of(w)
}

// The months from the reporting date to a maturity: those between the two days' months (none where the maturity's is
// the earlier), and one more where the maturity's day of the month is the later.
#[tactic(auto, unfolding(crate::specs::Maturity::months_between))]
pub fn months_between(reporting_date: u64, maturity: u64) -> u64
    ensures { result ≡ months_between reporting_date maturity }
{
    let apart = month_count(maturity).saturating_sub(month_count(reporting_date));
    apart + u64::from(day_of(reporting_date) < day_of(maturity))
}

// The months of a maturity word: the word itself where the sheet has no reporting date, else counted from that date.
pub fn maturity_months(reporting_date: u64, w: u64) -> u64
    ensures { result ≡ maturity_months reporting_date w }
{
    if reporting_date == 0 {
        w
    } else {
        months_between(reporting_date, w)
    }
}

// Whether a maturity word is a day after the reporting date; where the sheet has none, the word is a number of months
// and nothing is asked of it here.
pub fn maturity_allowed(reporting_date: u64, w: u64) -> bool
    ensures { result ≡ maturity_allowed reporting_date w }
{
    reporting_date == 0 || (reporting_date < w && names_day(w))
}
