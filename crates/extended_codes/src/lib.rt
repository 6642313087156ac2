//! The four times extended code.
#![tactic(auto)]

ghost use Rattle.std.specs.Prelude.{◌≡◌, ◌+◌, ◌-◌, ◌<◌, ◌≤◌, Ok};
ghost use Rattle.fields.specs.Meaning.{size};
ghost use Rattle.codes.specs.Systematic.{power_of, point, four_entry, four_times, four_generator};
ghost use Rattle.codes.specs.Theorems.{ThreeIndependent, ThreeTellApart};
ghost use Rattle.codes.proofs.Families.{four_times_laws, four_times_generates};

use codes::Code;
use faults::Fault;
use fields::Field;

/// A column 1, x, x x, x x x for each element x but 0, and the four unit columns.
#[derive(Clone, Copy)]
pub struct FourTimes<B> {
    base: B,
}

impl<B: Field> FourTimes<B> {
    /// The code over a field.
    pub fn over(base: B) -> FourTimes<B>
        ensures base { result.base ≡ base }
        ensures meaning { four_times (B.meaning result.base) ≡ four_times (B.meaning base) }
    {
        FourTimes { base }
    }

    /// How many erasures every word survives, wherever they are: any three columns are independent.
    pub fn erasures(&self) -> usize
        ensures value { result ≡ 3 }
        ensures independent { ThreeIndependent (B.meaning self.now.base) }
        ensures apart { ThreeTellApart (B.meaning self.now.base) }
    {
        3
    }
}

/// 1, x, x x or x x x.
fn power<B: Field>(base: &B, exponent: usize, x: u16) -> Result<u16, Fault>
    requires { x < size (B.meaning base.now) }
    ensures { result ≡ Ok (power_of (B.meaning base.now) exponent x) }
{
    match exponent {
        0 => Ok(1),
        1 => Ok(x),
        2 => base.product(x, x),
        _ => {
            let square = base.product(x, x)?;
            base.product(square, x)
        }
    }
}

/// A power of the point of a place.
fn point_power<B: Field>(base: &B, exponent: usize, place: usize) -> Result<u16, Fault>
    requires { place < size (B.meaning base.now) - 1 }
    ensures { result ≡ Ok (power_of (B.meaning base.now) exponent (point (B.meaning base.now) place)) }
{
    let x = base.roll((base.size() - 2 - place) as u16)?;
    power(base, exponent, x)
}

/// The entry of a check at a place.
fn check_entry<B: Field>(base: &B, check: usize, place: usize) -> Result<u16, Fault>
    requires { place < size (B.meaning base.now) + 3 }
    ensures { result ≡ Ok (four_entry (B.meaning base.now) check place) }
{
    let points = base.size() - 1;
    if place < points {
        return point_power(base, check, place);
    }
    Ok(u16::from(check == place - points))
}

/// The generator's entry for a message symbol at a place.
fn generator_entry<B: Field>(base: &B, index: usize, place: usize) -> Result<u16, Fault>
    requires { index < size (B.meaning base.now) - 1 }
    ensures { result ≡ Ok (four_generator (B.meaning base.now) index place) }
{
    let points = base.size() - 1;
    if place < points {
        return Ok(u16::from(index == place));
    }
    point_power(base, place - points, index)
}

impl<B: Field> Code for FourTimes<B> {
    type F = B;

    ghost meaning = { λ c. four_times (B.meaning c.base) };

    ghost generating = { λ c. four_generator (B.meaning c.base) };

    ghost lawful = { λ c. four_times_laws (B.meaning c.base) (B.lawful c.base) };

    ghost generates = { λ c. four_times_generates (B.meaning c.base) (B.lawful c.base) };

    fn field(&self) -> &B {
        &self.base
    }

    fn places(&self) -> usize {
        self.base.size() + 3
    }

    fn checks(&self) -> usize {
        4
    }

    fn dimension(&self) -> usize {
        self.base.size() - 1
    }

    #[inline]
    fn entry(&self, check: usize, place: usize) -> Result<u16, Fault> {
        let check = self.check(check)?;
        let place = self.place(place)?;
        check_entry(&self.base, check, place)
    }

    fn message_place(&self, index: usize) -> Result<usize, Fault> {
        self.index(index)
    }

    #[inline]
    fn generator(&self, index: usize, place: usize) -> Result<u16, Fault> {
        let index = self.index(index)?;
        let place = self.place(place)?;
        generator_entry(&self.base, index, place)
    }
}
