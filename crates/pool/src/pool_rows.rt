// Rows of a judged sheet's pool. What reads them takes these types, so that no reader asks anew whether the rows are
// there.
ghost use Rattle.std.specs.Prelude.{◌≤◌, ◌<◌};
ghost use Rattle.judgement.specs.DealSheet.{rows};

use judgement::JudgedSheet;

// A row of the pool, by its number from 0.
#[derive(Clone, Copy)]
pub struct Row<'a> {
    pub sheet: &'a JudgedSheet<'a>,
    pub number: u64,
    pub ghost there: { number < rows sheet.now.words.now },
}

// The rows of the pool from first to before end.
#[derive(Clone, Copy)]
pub struct Rows<'a> {
    pub sheet: &'a JudgedSheet<'a>,
    pub first: u64,
    pub end: u64,
    pub ghost within: { end ≤ rows sheet.now.words.now },
}
