//! The field of 256 elements, worked out by shifts.
ghost use Rattle.std.specs.Prelude.{◌≡◌, ◌≢◌};
ghost use Rattle.fields.specs.Answers.{element_answer, inverse};
ghost use Rattle.fields.specs.Polynomials.{gf256};
ghost use Rattle.binary_fields.specs.Laws.{gf256_laws};

use faults::Fault;
use fields::Field;

/// The polynomials modulo x⁸ + x⁴ + x³ + x² + 1, with no table.
#[derive(Clone, Copy)]
pub struct Gf256;

/// What x⁸ is: the modulus without its leading term.
const REDUCED: u8 = 0x1d;

/// X times `x`: a shift, and what x⁸ is where a term of degree 8 came.
#[tactic(auto, using(crate::proofs::Shifts::shifted_only, crate::proofs::Shifts::shifted_and_reduced))]
fn doubled(x: u8) -> u8
    ensures { result ≡ gf256.product 2 x }
{
    if x < 128 { x << 1 } else { (x << 1) ^ REDUCED }
}

/// The product, as the sum of the shifted copies of `x` that the terms of `y` choose.
fn shift_product(x: u8, y: u8) -> u8
    ensures { result ≡ gf256.product x y }
{
    let mut sum = 0;
    let mut shifted = x;
    let mut rest = y;
    for _i in 0..8u8 {
        // the shifted copy where y has this term, and else 0
        sum ^= (rest & 1) * shifted;
        shifted = doubled(shifted);
        rest >>= 1;
    }
    sum
}

/// The inverse of `x`, which is `x` to the power 254.
#[tactic(auto, using(crate::proofs::Shifts::power_254_is))]
fn power_254(x: u8) -> u8
    requires { x ≢ 0 }
    ensures { result ≡ inverse gf256 x }
{
    let x2 = shift_product(x, x);
    let x3 = shift_product(x2, x);
    let x6 = shift_product(x3, x3);
    let x12 = shift_product(x6, x6);
    let x15 = shift_product(x12, x3);
    let x30 = shift_product(x15, x15);
    let x60 = shift_product(x30, x30);
    let x120 = shift_product(x60, x60);
    let x240 = shift_product(x120, x120);
    let x252 = shift_product(x240, x12);
    shift_product(x252, x2)
}

/// 2 to the power `i`.
#[tactic(auto, unfolding(fields::specs::Polynomials::power))]
fn power_of_two(i: u16) -> u8
    ensures { result ≡ gf256.roll i }
{
    (0..i).fold(1, |power, _| doubled(power))
}

impl Gf256 {
    /// The element as a byte; 11 where `x` is no element.
    fn byte(&self, x: u16) -> Result<u8, Fault>
        ensures { result ≡ element_answer gf256 x }
    {
        Ok(self.element(x)? as u8)
    }
}

impl Field for Gf256 {
    ghost meaning = { λ _. gf256 };

    ghost lawful = { λ f. gf256_laws };

    fn width(&self) -> u8 {
        8
    }

    fn c(&self) -> u16 {
        32
    }

    fn product(&self, x: u16, y: u16) -> Result<u16, Fault> {
        let (x, y) = (self.byte(x)?, self.byte(y)?);
        Ok(u16::from(shift_product(x, y)))
    }

    fn inverse(&self, x: u16) -> Result<u16, Fault> {
        let x = self.byte(self.nonzero(x)?)?;
        Ok(u16::from(power_254(x)))
    }

    fn roll(&self, i: u16) -> Result<u16, Fault> {
        let i = self.roll_index(i)?;
        Ok(u16::from(power_of_two(i)))
    }
}
