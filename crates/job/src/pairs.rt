// The pairs of numbers below a limit.
ghost use Rattle.std.specs.Prelude.{◌≡◌, ◌<◌};

// The pairs that are still to come: each number with those below it, row by row. (A struct: a chain that a function answers gets no proof. Calls take the two numbers one by one, since a tuple would put `.0` and `.1` in every clause.)
#[derive(Drop)]
pub struct Pairs {
    smaller: usize,
    larger: usize,
    limit: usize,
    ghost rising: { smaller < larger },
}

impl Pairs {
    ghost use Rattle.job.specs.Rest.{rest};
    ghost use Rattle.job.specs.Tests.{pairs};

    // All pairs of numbers below a limit, the smaller number first: (0, 1), (0, 2), (1, 2), (0, 3) and so on.
    pub fn below(limit: usize) -> Pairs
        ensures { rest result ≡ pairs limit }
    {
        Pairs {
            smaller: 0,
            larger: 1,
            limit,
        }
    }
}

impl Iterator for Pairs {
    ghost use Rattle.std.specs.Iterator.{YieldsFirst, item_count};
    ghost use Rattle.job.specs.Rest.{rest};

    type Item = (usize, usize);

    ghost next_gives = { YieldsFirst rest };

    ghost remaining = { item_count rest };

    fn next(&mut self) -> Option<(usize, usize)> {
        if self.larger >= self.limit {
            return None;
        }
        let pair = (self.smaller, self.larger);
        if self.smaller + 1 < self.larger {
            self.smaller += 1;
        } else {
            self.smaller = 0;
            self.larger += 1;
        }
        Some(pair)
    }
}
