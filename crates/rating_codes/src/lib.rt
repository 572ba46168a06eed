// Which codes are ratings, and of what kind. A crate of their own, since a sheet's words are judged by the codes alone,
// whatever the rating table says.
#![tactic(auto)]

ghost use Rattle.std.specs.Prelude.{◌≡◌, [], ◌∷◌, ◌≤◌, length};
ghost use Rattle.rating_codes.specs.RatingCodes.{long_term, short_term, present, any_present, listed, ratings_among};

// Whether a code is a row of the rating table.
// One line, here and below, of a definition each.
pub fn long_term(code: u64) -> bool
    ensures { result ≡ long_term code }
{
    matches!(code, 1..=18)
}

// Whether a code is a short-term grade.
pub fn short_term(code: u64) -> bool
    ensures { result ≡ short_term code }
{
    matches!(code, 21..=24)
}

// Whether a code is a rating, long-term or short-term.
pub fn is_present(code: u64) -> bool
    ensures { result ≡ present code }
{
    long_term(code) || short_term(code)
}

// The rating words of a tranche, each a rating or none.
#[derive(Clone, Copy, Debug, PartialEq, Eq)]
pub struct Ratings {
    pub first: u64,
    pub second: u64,
    pub third: u64,
}

impl Ratings {
    // Whether any of the words is a rating.
    pub fn any_present(self) -> bool
        ensures { result ≡ any_present self.first self.second self.third }
    {
        is_present(self.first) || is_present(self.second) || is_present(self.third)
    }

    // How many of the words are ratings.
    pub fn count_present(self) -> u64
        ensures { result ≡ length (ratings_among (self.first ∷ self.second ∷ self.third ∷ [])) }
    {
        u64::from(is_present(self.first))
            + u64::from(is_present(self.second))
            + u64::from(is_present(self.third))
    }
}

// Whether a code is listed: none, or a rating.
pub fn is_listed(code: u64) -> bool
    ensures { result ≡ listed code }
{
    code == 0 || is_present(code)
}
