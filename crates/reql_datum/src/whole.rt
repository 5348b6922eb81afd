// A whole number within the range that a double holds exactly.
ghost use Rattle.std.specs.Prelude.{◌≡◌, IfOk, OnOk, ℤ, ◌+ℤ◌, ◌-ℤ◌, ◌*ℤ◌, if◌then◌else◌, int_div, pos, false};
ghost use Rattle.std.specs.Ordering.{int_eq};
ghost use Rattle.reql_datum.specs.Whole.{is_in, IsIn};
ghost use Rattle.reql_datum.specs.Arithmetic.{held, quotient, remainder};

use std::marker::Model;

const MOST: i64 = 9007199254740992;

/// A whole number of -2^53 to 2^53, the range in which a double holds each whole number exactly.
///
/// Contracts see the number. Arithmetic is exact over the integers or refused by its cause, and
/// takes no memory.
#[derive(Clone, Copy)]
pub struct Whole {
    n: i64,
}

/// Why arithmetic on whole numbers gives none.
#[derive(Clone, Copy, PartialEq, Eq, Debug)]
pub enum NumFault {
    /// The result leaves the range.
    OverRange,
    /// The divisor is 0.
    ZeroDivisor,
    /// The quotient leaves a remainder.
    NotWhole,
}

impl Model for Whole {
    ghost use Rattle.std.specs.Prelude.{ℤ};
    ghost use Rattle.reql_datum.specs.Whole.{IsIn};

    ghost Value = { ℤ };

    ghost view = { λ a. a.n };

    ghost invariant = { λ a. IsIn a.n };

    ghost inverse = { λ d. record { n = d } };
}

impl Whole {
    /// The number, or None outside the range.
    pub fn new(n: i64) -> Option<Whole>
        ensures { result ≡ (if is_in n then Some n else None) }
    {
        if -MOST <= n && n <= MOST {
            Some(Whole { n })
        } else {
            None
        }
    }

    /// The number as an integer of 64 bits.
    pub fn get(self) -> i64
        ensures value { result ≡ self }
        ensures in_range { IsIn result }
    {
        self.n
    }

    /// The sum.
    pub fn add(self, other: Whole) -> Result<Whole, NumFault>
        ensures { result ≡ held (self +ℤ other) }
    {
        in_range(self.get() + other.get())
    }

    /// The difference.
    pub fn sub(self, other: Whole) -> Result<Whole, NumFault>
        ensures { result ≡ held (self -ℤ other) }
    {
        in_range(self.get() - other.get())
    }

    /// The product.
    pub fn mul(self, other: Whole) -> Result<Whole, NumFault>
        ensures { result ≡ held (self *ℤ other) }
    {
        match self.get().checked_mul(other.get()) {
            Some(n) => in_range(n),
            None => Err(NumFault::OverRange),
        }
    }

    /// The quotient, where it is exact.
    #[tactic(auto, using(crate::proofs::Arithmetic::quotient_exact))]
    pub fn div(self, other: Whole) -> Result<Whole, NumFault>
        ensures value { result ≡ quotient self other }
        ensures exact { IfOk result (λ q. q *ℤ other ≡ self) }
    {
        let left = self.rem(other)?;
        if left.get() != 0 {
            return Err(NumFault::NotWhole);
        }
        self.part(other)
    }

    fn part(self, other: Whole) -> Result<Whole, NumFault>
        requires { int_eq other (pos 0) ≡ false }
        ensures { result ≡ held (int_div self other) }
    {
        in_range(self.get() / other.get())
    }

    /// What is left of the dividend, with its sign.
    pub fn rem(self, other: Whole) -> Result<Whole, NumFault>
        ensures value { result ≡ remainder self other }
        ensures divisor { OnOk result (int_eq other (pos 0) ≡ false) }
    {
        let (a, b) = (self.get(), other.get());
        if b == 0 {
            return Err(NumFault::ZeroDivisor);
        }
        Ok(Whole { n: a % b })
    }
}

fn in_range(n: i64) -> Result<Whole, NumFault>
    ensures { result ≡ held n }
{
    match Whole::new(n) {
        Some(whole) => Ok(whole),
        None => Err(NumFault::OverRange),
    }
}
