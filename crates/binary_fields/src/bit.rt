//! The field of the numbers 0 and 1.
ghost use Rattle.std.specs.Prelude.{◌≡◌};
ghost use Rattle.fields.specs.Answers.{inverse};
ghost use Rattle.fields.specs.Polynomials.{gf2};
ghost use Rattle.fields.proofs.BitLaws.{bit_laws};

use faults::Fault;
use fields::Field;

/// The numbers 0 and 1.
#[derive(Clone, Copy)]
pub struct Bit;

/// How many bits an element has.
const WIDTH: u8 = 1;

/// The element c.
const C: u16 = 1;

/// 1 is its own inverse.
#[tactic(auto, unfolding(fields::specs::Answers::inverse))]
fn own_inverse(x: u16) -> u16
    requires { x ≡ 1 }
    ensures { result ≡ inverse gf2 x }
{
    x
}

impl Field for Bit {
    ghost meaning = { λ _. gf2 };

    ghost lawful = { λ f. bit_laws };

    fn width(&self) -> u8 {
        WIDTH
    }

    fn c(&self) -> u16 {
        C
    }

    fn product(&self, x: u16, y: u16) -> Result<u16, Fault> {
        Ok(self.element(x)? & self.element(y)?)
    }

    fn inverse(&self, x: u16) -> Result<u16, Fault> {
        Ok(own_inverse(self.nonzero(x)?))
    }

    fn roll(&self, i: u16) -> Result<u16, Fault> {
        self.roll_index(i)?;
        Ok(1)
    }
}
