// The words of a sheet as far as their counts are good, with the places that follow from the counts.
ghost use Rattle.std.specs.Prelude.{◌≡◌, ◌+◌, ◌-◌, ◌≤◌, ◌<◌};
ghost use Rattle.judgement.specs.DealSheet.{pool_at, rows, row_at, tranches_at, tranche_count, tranche_at, class, irb_at, needed};
ghost use Rattle.judgement.specs.Refusals.{judged};
ghost use Rattle.judgement.specs.Verdicts.{Sound};

use crate::sheet::{pool_at, row_count, word_at};
use limits::{IRB_ROWS, IRB_SIZE, ROW_SIZE, TRANCHE_SIZE};

// A sheet whose words are good up to the pool's count, that one too: the places of its pool rows are known.
#[derive(Clone, Copy)]
pub(crate) struct CountedPool<'a> {
    pub(crate) words: &'a [u64],
    ghost counted: { judged words.now (pool_at words.now + 1) ≡ Sound },
}

impl CountedPool<'_> {
    // The place of pool row i, from 0; that past the last row is the place of the tranches' count.
    pub(crate) fn row_at(self, i: u64) -> u64
        requires { i ≤ rows self.words.now }
        ensures { result ≡ row_at self.entry.words.now i }
    {
        pool_at(self.words) + 1 + ROW_SIZE as u64 * i
    }

    // The place of the tranches' count.
    pub(crate) fn tranches_at(self) -> u64
        ensures { result ≡ tranches_at self.entry.words.now }
    {
        self.row_at(row_count(self.words))
    }

    // The number of tranches.
    pub(crate) fn tranche_count(self) -> u64
        ensures { result ≡ tranche_count self.entry.words.now }
    {
        word_at(self.words, self.tranches_at())
    }
}

// A sheet whose words are good up to the tranches' count, that one too: the places of its tranches are known.
#[derive(Clone, Copy)]
pub(crate) struct CountedTranches<'a> {
    pub(crate) words: &'a [u64],
    ghost counted: { judged words.now (tranches_at words.now + 1) ≡ Sound },
}

impl<'a> CountedTranches<'a> {
    // The same sheet, of which the pool is counted.
    fn pool(self) -> CountedPool<'a>
        ensures { result.words.now ≡ self.entry.words.now }
    {
        CountedPool { words: self.words }
    }

    // The number of tranches.
    pub(crate) fn tranche_count(self) -> u64
        ensures { result ≡ tranche_count self.entry.words.now }
    {
        self.pool().tranche_count()
    }

    // The place of tranche i, from 0; that past the last tranche is the place of the IRB section's count.
    pub(crate) fn tranche_at(self, i: u64) -> u64
        requires { i ≤ tranche_count self.words.now }
        ensures { result ≡ tranche_at self.entry.words.now i }
    {
        self.pool().tranches_at() + 1 + TRANCHE_SIZE as u64 * i
    }

    // The class of the tranche before tranche i (of tranche 0 itself where i is 0, where it is not used).
    pub(crate) fn class_before(self, i: u64) -> u64
        requires { i < tranche_count self.words.now }
        ensures { result ≡ class self.entry.words.now (i - 1) }
    {
        word_at(self.words, self.tranche_at(i.saturating_sub(1)) + 1)
    }

    // The place of the IRB section's count, past the last tranche.
    pub(crate) fn irb_at(self) -> u64
        ensures { result ≡ irb_at self.entry.words.now }
    {
        self.tranche_at(self.tranche_count())
    }

    // The number of words that the sheet needs: the place past its last section, which for an SA pool is that of the
    // tranches.
    pub(crate) fn end(self) -> u64
        ensures { result ≡ needed self.entry.words.now }
    {
        let end = self.irb_at();
        if word_at(self.words, 1) == 0 {
            return end;
        }
        end + 1 + (IRB_SIZE * IRB_ROWS) as u64
    }
}
