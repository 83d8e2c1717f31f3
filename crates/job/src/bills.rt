// What a grouping costs, in two totals.
ghost use Rattle.std.specs.Prelude.{◌≡◌};
ghost use Rattle.job.specs.Cost.{separating_term, joining_term};

use amount::Amount;

// What is paid for pairs in different groups, and for pairs that share one: two definitions, so that each has a clause of its own wherever a bill is made.
#[derive(Clone, Copy)]
pub struct Bill<A> {
    pub separating: A,
    pub joining: A,
}

// A bill on which nothing stands. (By hand: a kind of amount has a zero, and need not have a default.)
impl<A: Amount> Default for Bill<A> {
    ghost is_default = { λ bill. (bill.separating ≡ A.Amount.kind.zero) × (bill.joining ≡ A.Amount.kind.zero) };

    fn default() -> Bill<A> {
        let zero = A::zero();
        Bill {
            separating: zero,
            joining: zero,
        }
    }
}

impl<A: Amount> Bill<A> {
    // What one pair costs, in one group or in two.
    pub fn of_pair(shared: bool, amount: A) -> Bill<A>
        ensures separating { result.separating ≡ separating_term A.Amount.kind shared amount }
        ensures joining { result.joining ≡ joining_term A.Amount.kind shared amount }
    {
        let zero = A::zero();
        if shared {
            Bill {
                separating: zero,
                joining: amount.negative_part(),
            }
        } else {
            Bill {
                separating: amount.positive_part(),
                joining: zero,
            }
        }
    }

    // One bill on top of another.
    pub fn plus(self, more: Bill<A>) -> Bill<A>
        ensures separating { result.separating ≡ A.Amount.kind.sum self.separating more.separating }
        ensures joining { result.joining ≡ A.Amount.kind.sum self.joining more.joining }
    {
        Bill {
            separating: self.separating.sum(more.separating),
            joining: self.joining.sum(more.joining),
        }
    }

    // The cost: both together.
    pub fn cost(self) -> A
        ensures { result ≡ A.Amount.kind.sum self.separating self.joining }
    {
        self.separating.sum(self.joining)
    }
}
