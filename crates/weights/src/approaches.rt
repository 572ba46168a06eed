// The approaches to a tranche's weight.
ghost use Rattle.std.specs.Prelude.{◌≡◌};
ghost use Rattle.weights.specs.Approaches.{number_of};
ghost use Rattle.weights.specs.ApproachFloorCap.{formula_approach};

// The approaches, by the numbers that 01 and 02 give them: the fallback, SEC-ERBA, SEC-SA and SEC-IRBA.
#[derive(Clone, Copy, Debug, PartialEq, Eq)]
pub enum Approach {
    Fallback = 0,
    Erba = 1,
    Sa = 2,
    Irba = 3,
}

impl Approach {
    // The number of the approach in 01 or 02.
    pub fn number(self) -> u64
        ensures { result ≡ number_of self }
    {
        self as u64
    }

    // Whether it weighs by the formula: SEC-SA and SEC-IRBA do.
    pub(crate) fn is_by_formula(self) -> bool
        ensures { result ≡ formula_approach (number_of self) }
    {
        matches!(self, Approach::Sa | Approach::Irba)
    }
}
