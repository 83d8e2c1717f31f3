// Amounts: what costs are counted in, and what holds of every kind of them.
#![tactic(auto)]

ghost use Rattle.std.specs.Prelude.{◌≡◌, ◌↔◌, IsTrue, Some};
ghost use Rattle.amount.specs.Kind.{Kind, Laws};
ghost use Rattle.amount.specs.Signs.{positive, negative, same, absolute, lesser, positive_part, negative_part, opposite_signs, overlap, Merges, Mergeable};
ghost use Rattle.amount.specs.Totals.{total as total_of, ExactTotals};
ghost use Rattle.amount.specs.Refusals.{width_number, width_text};

use std::error::Error;
use std::fmt;

mod ranks;
mod singles;

pub use ranks::Ranked;
pub use singles::Single;

// No amount has a span above this, 2^50.
pub const SPAN_LIMIT: i64 = 1 << 50;

// Why an amount is not made.
#[derive(Clone, Copy, PartialEq, Eq, Debug)]
pub enum WidthRefusal {
    // a number is above the limit, or below its opposite
    TooWide = 4,
}

impl WidthRefusal {
    // The number by which users know it.
    pub fn number(self) -> u8
        ensures { result ≡ width_number self }
    {
        self as u8
    }
}

// By hand, as with each refusal: the `Display` that the kit's `thiserror` derives states no text, and the gate refuses an `impl` that a macro of one's own writes.
impl fmt::Display for WidthRefusal {
    ghost output = { λ refusal. Some (width_text refusal) };

    fn fmt<W: fmt::Write>(&self, f: &mut fmt::Formatter<W>) -> fmt::Result {
        match self {
            WidthRefusal::TooWide => f.write_str("an amount is too wide"),
        }
    }
}

impl Error for WidthRefusal {}

// A kind of amount. Whatever keeps the laws may be used throughout.
pub trait Amount: Copy {
    ghost kind: { Kind Self };

    // The amount that costs nothing.
    fn zero() -> Self
        ensures { result ≡ kind.zero };

    // The sum of two amounts.
    fn sum(self, other: Self) -> Self
        ensures { result ≡ kind.sum self other };

    // What cancels the amount.
    fn opposite(self) -> Self
        ensures { result ≡ kind.opposite self };

    // Whether it is below another in the order of its kind.
    fn is_below(self, other: Self) -> bool
        ensures { result ≡ kind.below self other };

    // How far it reaches from zero.
    fn span(self) -> u64
        ensures { result ≡ kind.span self };

    // Whether it is above zero.
    fn is_positive(self) -> bool
        ensures { result ≡ positive kind self }
    {
        Self::zero().is_below(self)
    }

    // Whether it is below zero.
    fn is_negative(self) -> bool
        ensures { result ≡ negative kind self }
    {
        self.is_below(Self::zero())
    }

    // The opposite of a negative one; any other itself.
    fn absolute(self) -> Self
        ensures { result ≡ absolute kind self }
    {
        if self.is_negative() {
            self.opposite()
        } else {
            self
        }
    }

    // The lesser of two.
    fn lesser(self, other: Self) -> Self
        ensures { result ≡ lesser kind self other }
    {
        if other.is_below(self) { other } else { self }
    }

    // A positive one itself; for any other zero.
    fn positive_part(self) -> Self
        ensures { result ≡ positive_part kind self }
    {
        if self.is_positive() {
            self
        } else {
            Self::zero()
        }
    }

    // The opposite of a negative one; for any other zero.
    fn negative_part(self) -> Self
        ensures { result ≡ negative_part kind self }
    {
        let zero = Self::zero();
        if self.is_below(zero) {
            self.opposite()
        } else {
            zero
        }
    }

    ghost laws: { Laws kind };
}

// Whether two amounts are one. (A kind need not have an `==`: the laws speak of its order alone.)
pub fn is_same<A: Amount>(x: A, y: A) -> bool
    ensures value { result ≡ same A.Amount.kind x y }
    ensures means { IsTrue result ↔ (x ≡ y) }
{
    !x.is_below(y) && !y.is_below(x)
}

// Whether one is positive and the other negative.
fn has_opposite_signs<A: Amount>(x: A, y: A) -> bool
    ensures { result ≡ opposite_signs A.Amount.kind x y }
{
    (x.is_positive() && y.is_negative()) || (x.is_negative() && y.is_positive())
}

// What of x and y is lost in their sum. The contract has the two identities that a merge rests on.
pub fn overlap<A: Amount>(x: A, y: A) -> A
    ensures value { result ≡ overlap A.Amount.kind x y }
    ensures merges { Mergeable A.Amount.kind x y → Merges A.Amount.kind x y }
{
    if has_opposite_signs(x, y) {
        x.absolute().lesser(y.absolute())
    } else {
        A::zero()
    }
}

// The total of a list. The contract says besides what makes totals exact sums.
pub fn total<A: Amount>(amounts: &[A]) -> A
    ensures value { result ≡ total_of A.Amount.kind amounts.now }
    ensures exact { ExactTotals A.Amount.kind }
{
    amounts
        .iter()
        .fold(A::zero(), |sum, amount| sum.sum(*amount))
}
