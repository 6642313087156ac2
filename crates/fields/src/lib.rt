//! The interface of a field, what a field means, and the laws that every field keeps.
#![tactic(auto)]

ghost use Rattle.std.specs.Prelude.{◌≡◌, ◌≤◌};
ghost use Rattle.fields.specs.Meaning.{FieldMeaning, FieldLaws, size};
ghost use Rattle.fields.specs.Answers.{element_answer, nonzero_answer, sum_answer, product_answer, inverse_answer, roll_index_answer, roll_answer};

use faults::{Fault, FieldCause};

/// A field of q elements, the numbers below q, where q is 2 to the power of the width.
/// The sum of two elements is their exclusive or.
pub trait Field {
    // what the field means
    ghost meaning: { Self → FieldMeaning };

    // the laws that it keeps, which each kind proves
    ghost lawful: { (f : Self) → FieldLaws (meaning f) };

    /// How many bits an element has, from 1 to 8.
    fn width(&self) -> u8
        ensures { result ≡ (meaning self.now).width };

    /// The element c, for which no z has z z + z = c.
    fn c(&self) -> u16
        ensures { result ≡ (meaning self.now).c };

    /// q, how many elements there are.
    #[tactic(auto, using(crate::proofs::Sizes::size_few))]
    fn size(&self) -> usize
        ensures value { result ≡ size (meaning self.now) }
        ensures some { 2 ≤ result }
        ensures few { result ≤ 256 }
    {
        1 << self.width()
    }

    /// The element itself; 11 where `x` is no element.
    fn element(&self, x: u16) -> Result<u16, Fault>
        ensures { result ≡ element_answer (meaning self.now) x }
    {
        if usize::from(x) >= self.size() {
            return Err(Fault::from(FieldCause::Operand));
        }
        Ok(x)
    }

    /// The element itself; 11 where `x` is no element, 12 where it is 0.
    fn nonzero(&self, x: u16) -> Result<u16, Fault>
        ensures { result ≡ nonzero_answer (meaning self.now) x }
    {
        match self.element(x)? {
            0 => Err(Fault::from(FieldCause::InverseOfZero)),
            x => Ok(x),
        }
    }

    /// The sum; 11 where an operand is no element.
    fn sum(&self, x: u16, y: u16) -> Result<u16, Fault>
        ensures { result ≡ sum_answer (meaning self.now) x y }
    {
        Ok(self.element(x)? ^ self.element(y)?)
    }

    /// The product; 11 where an operand is no element.
    fn product(&self, x: u16, y: u16) -> Result<u16, Fault>
        ensures { result ≡ product_answer (meaning self.now) x y };

    /// The element whose product with `x` is 1; 11 where `x` is no element, 12 where it is 0.
    fn inverse(&self, x: u16) -> Result<u16, Fault>
        ensures { result ≡ inverse_answer (meaning self.now) x };

    /// The number itself; 13 where `i` is q - 1 or more.
    fn roll_index(&self, i: u16) -> Result<u16, Fault>
        ensures { result ≡ roll_index_answer (meaning self.now) i }
    {
        if usize::from(i) + 1 >= self.size() {
            return Err(Fault::from(FieldCause::Roll));
        }
        Ok(i)
    }

    /// The non-zero element of number `i`; 13 where `i` is q - 1 or more.
    fn roll(&self, i: u16) -> Result<u16, Fault>
        ensures { result ≡ roll_answer (meaning self.now) i };
}
