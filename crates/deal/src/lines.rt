// The lines of an accepted sheet, written to the lent results.
ghost use Rattle.std.specs.Prelude.{◌≡◌, ◌++◌, ◌+◌, ◌*◌, ◌≤◌, ◌<◌, length, drop};
ghost use Rattle.std.proofs.lemmas.List.Edits.{sets};
ghost use Rattle.limits.specs.SheetSize.{line_size};
ghost use Rattle.judgement.specs.DealSheet.{tranche_count};
ghost use Rattle.deal.specs.Lines.{terms, tranche, line, words_of};
ghost use Rattle.deal.specs.Results.{lines};

use crate::Line;
use crate::prepared::PreparedDeal;
use crate::tranches::{capital, risk_weighted_amount};
use limits::LINE_SIZE;
use weights::{approach, weight};

// Writes the seven words of a line from a place on: the results are one lent list, in C as well.
fn put_line(line: Line, at: usize, results: &mut [u64])
    requires { at + line_size ≤ length results.old }
    ensures { results.new ≡ sets results.old at (words_of line) }
{
    results[at] = line.approach;
    results[at + 1] = line.attachment;
    results[at + 2] = line.detachment;
    results[at + 3] = line.weight;
    results[at + 4] = line.rwa;
    results[at + 5] = line.capital;
    results[at + 6] = line.low;
}

impl PreparedDeal<'_> {
    // The line of tranche i; both amounts are by the weight and not by its low end.
    fn line_of(&self, i: u64) -> Line
        requires { i < tranche_count self.now.sheet.now.words.now }
        ensures { result ≡ line (tranche self.now.sheet.now.words.now i) (terms self.now.sheet.now.words.now) }
    {
        let t = self.tranche_of(i);
        let w = weight(t, *self.terms);
        Line {
            approach: approach(t, *self.terms).number(),
            attachment: t.attachment,
            detachment: t.detachment,
            weight: w.high,
            rwa: risk_weighted_amount(t.held, w.high),
            capital: capital(t.held, w.high),
            low: w.low,
        }
    }

    // Writes the line of every tranche, in order.
    pub(crate) fn write_lines(&self, results: &mut [u64])
        requires { line_size * tranche_count self.now.sheet.now.words.now ≤ length results.old }
        ensures { results.new ≡ lines self.now.sheet.now.words.now (tranche_count self.now.sheet.now.words.now) ++ drop (line_size * tranche_count self.now.sheet.now.words.now) results.old }
    {
        for i in 0..self.sheet.layout.tranches {
            let line = self.line_of(i);
            put_line(line, LINE_SIZE * i as usize, &mut *results);
        }
    }
}
