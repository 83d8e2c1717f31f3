// Amounts of one number.
ghost use Rattle.std.specs.Prelude.{◌≡◌, ◌≤◌, MatchResult, Some, unsigned_abs};
ghost use Rattle.std.specs.Fmt.{signed_decimal};
ghost use Rattle.amount.specs.Kind.{span_limit};
ghost use Rattle.amount.specs.Refusals.{width_number};

use crate::{SPAN_LIMIT, WidthRefusal};
use std::fmt;

pub(crate) mod kind;

// One signed whole number; its span is its absolute value.
#[derive(Clone, Copy, PartialEq, Eq, PartialOrd, Ord, Debug)]
pub struct Single {
    value: i64,
    ghost narrow: { unsigned_abs value ≤ span_limit },
}

impl Single {
    // The amount of a number; refused where it is too wide.
    pub fn new(value: i64) -> Result<Single, WidthRefusal>
        ensures { MatchResult result (λ s. s.value ≡ value) (λ e. (width_number e ≡ 4) × (unsigned_abs value ≤ span_limit → ⊥)) }
    {
        if value > SPAN_LIMIT || value < -SPAN_LIMIT {
            return Err(WidthRefusal::TooWide);
        }
        Ok(Single { value })
    }

    // The number.
    pub fn value(self) -> i64
        ensures { result ≡ self.value }
    {
        self.value
    }
}

// The number, in decimal. (By hand: a derived one would state no bytes.)
impl fmt::Display for Single {
    ghost output = { λ single. Some (signed_decimal single.value) };

    fn fmt<W: fmt::Write>(&self, f: &mut fmt::Formatter<W>) -> fmt::Result {
        fmt::Display::fmt(&self.value, f)
    }
}
