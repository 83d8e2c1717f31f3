// What single amounts do.
ghost use Rattle.std.specs.Prelude.{◌≡◌, ◌+◌, ◌≤◌, ◌+ℤ◌, neg_ℤ, unsigned_abs};
ghost use Rattle.amount.specs.Kind.{span_limit};
ghost use Rattle.amount.specs.Single.{single, single_kind};
ghost use Rattle.amount.specs.SingleLaws.{single_laws};

use super::Single;
use crate::{Amount, SPAN_LIMIT};

impl Single {
    // The amount nearest to a number: the number itself where it is not too wide.
    fn nearest(value: i64) -> Single
        ensures nearest { result ≡ single value }
        ensures exact { unsigned_abs value ≤ span_limit → result.value ≡ value }
    {
        Single {
            value: value.clamp(-SPAN_LIMIT, SPAN_LIMIT),
        }
    }
}

impl Amount for Single {
    ghost kind = { single_kind };

    ghost laws = { single_laws };

    fn zero() -> Single {
        Single::nearest(0)
    }

    // The exact sum where the spans total at most the limit, the clamped one beyond.
    fn sum(self, other: Single) -> Single
        ensures kind { result ≡ single_kind.sum self other }
        ensures exact { single_kind.span self + single_kind.span other ≤ span_limit → result.value ≡ self.value +ℤ other.value }
    {
        Single::nearest(self.value + other.value)
    }

    fn opposite(self) -> Single
        ensures kind { result ≡ single_kind.opposite self }
        ensures exact { result.value ≡ neg_ℤ self.value }
    {
        Single::nearest(-self.value)
    }

    fn is_below(self, other: Single) -> bool {
        self < other
    }

    fn span(self) -> u64 {
        self.value.unsigned_abs()
    }
}
