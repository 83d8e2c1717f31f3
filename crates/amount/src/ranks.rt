// Amounts of two numbers, the first counting before the second.
ghost use Rattle.std.specs.Prelude.{◌≡◌, ◌≤◌, ◌++◌, max, MatchResult, Some, codes, unsigned_abs};
ghost use Rattle.std.specs.Fmt.{signed_decimal};
ghost use Rattle.amount.specs.Kind.{span_limit};
ghost use Rattle.amount.specs.Refusals.{width_number};

use crate::{Single, WidthRefusal};
use std::fmt;

pub(crate) mod kind;

// Two signed whole numbers, written first/second; the span is the larger absolute value.
#[derive(Clone, Copy, PartialEq, Eq, PartialOrd, Ord, Debug)]
pub struct Ranked {
    first: Single,
    second: Single,
}

impl Ranked {
    // The amount of two numbers; refused where one is too wide.
    pub fn new(first: i64, second: i64) -> Result<Ranked, WidthRefusal>
        ensures { MatchResult result (λ s. (s.first.value ≡ first) × (s.second.value ≡ second)) (λ e. (width_number e ≡ 4) × (max (unsigned_abs first) (unsigned_abs second) ≤ span_limit → ⊥)) }
    {
        Ok(Ranked {
            first: Single::new(first)?,
            second: Single::new(second)?,
        })
    }

    // The first rank.
    pub fn first(self) -> i64
        ensures { result ≡ self.first.value }
    {
        self.first.value()
    }

    // The second rank.
    pub fn second(self) -> i64
        ensures { result ≡ self.second.value }
    {
        self.second.value()
    }
}

// Both ranks in decimal, first/second. (By hand: a derived one would state no bytes.)
impl fmt::Display for Ranked {
    ghost output = { λ ranked. Some (signed_decimal ranked.first.value ++ codes "/" ++ signed_decimal ranked.second.value) };

    fn fmt<W: fmt::Write>(&self, f: &mut fmt::Formatter<W>) -> fmt::Result {
        write!(f, "{}/{}", self.first, self.second)
    }
}
