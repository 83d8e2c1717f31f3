// What ranked amounts do: rank by rank what single ones do.
ghost use Rattle.std.specs.Prelude.{◌≡◌, ◌+◌, ◌≤◌, ◌+ℤ◌, neg_ℤ};
ghost use Rattle.amount.specs.Kind.{span_limit};
ghost use Rattle.amount.specs.Ranked.{ranked_kind};
ghost use Rattle.amount.specs.RankedLaws.{ranked_laws};

use super::Ranked;
use crate::{Amount, Single};

impl Amount for Ranked {
    ghost kind = { ranked_kind };

    ghost laws = { ranked_laws };

    fn zero() -> Ranked {
        Ranked {
            first: Single::zero(),
            second: Single::zero(),
        }
    }

    // Rank by rank: the exact sums where the spans total at most the limit, the clamped ones beyond.
    fn sum(self, other: Ranked) -> Ranked
        ensures kind { result ≡ ranked_kind.sum self other }
        ensures exact_first { ranked_kind.span self + ranked_kind.span other ≤ span_limit → result.first.value ≡ self.first.value +ℤ other.first.value }
        ensures exact_second { ranked_kind.span self + ranked_kind.span other ≤ span_limit → result.second.value ≡ self.second.value +ℤ other.second.value }
    {
        Ranked {
            first: self.first.sum(other.first),
            second: self.second.sum(other.second),
        }
    }

    fn opposite(self) -> Ranked
        ensures kind { result ≡ ranked_kind.opposite self }
        ensures exact_first { result.first.value ≡ neg_ℤ self.first.value }
        ensures exact_second { result.second.value ≡ neg_ℤ self.second.value }
    {
        Ranked {
            first: self.first.opposite(),
            second: self.second.opposite(),
        }
    }

    fn is_below(self, other: Ranked) -> bool {
        self < other
    }

    fn span(self) -> u64 {
        self.first.span().max(self.second.span())
    }
}
