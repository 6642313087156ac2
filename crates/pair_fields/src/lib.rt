//! The pairs over a field: each field of at most 4 bits doubled, once for all of them.
#![tactic(auto)]

ghost use Rattle.std.specs.Prelude.{◌≡◌, ◌≤◌, ◌/◌, ◌%◌, ◌^◌, nat_le};
ghost use Rattle.fields.specs.Answers.{product_answer, inverse_answer};
ghost use Rattle.fields.specs.Pairs.{doubled, pair};
ghost use Rattle.pair_fields.specs.Pairs.{doubles_answer, norm_answer};
ghost use Rattle.fields.proofs.PairLaws.{pair_laws};

use faults::{Fault, FieldCause};
use fields::Field;

/// With q the count of `base`, a q + b means a t + b, where t t = t + c.
/// Over a field of more than 4 bits it is that field.
#[derive(Clone, Copy)]
pub struct Pair<F> {
    base: F,
}

impl<F: Field> Pair<F> {
    /// The pairs over `base`.
    pub fn over(base: F) -> Self
        ensures base { result.base ≡ base }
        ensures meaning { pair (F.meaning result.base) ≡ pair (F.meaning base) }
    {
        Pair { base }
    }

    /// Whether there are pairs over the field below; 14 where it has more than 4 bits.
    pub fn doubles(&self) -> Result<(), Fault>
        ensures { result ≡ doubles_answer (F.meaning self.now.base) }
    {
        if !self.has_pairs() {
            return Err(Fault::from(FieldCause::NoDoubling));
        }
        Ok(())
    }

    /// Whether the field below is narrow enough to double.
    fn has_pairs(&self) -> bool
        ensures { result ≡ nat_le (F.meaning self.now.base).width 4 }
    {
        self.base.width() <= 4
    }
}

/// The coefficients a and b of the pair a t + b over a field of `w` bits.
fn coefficients(w: u8, x: u16) -> (u16, u16)
    requires { w ≤ 4 }
    ensures upper { result.0 ≡ x / 2 ^ w }
    ensures lower { result.1 ≡ x % 2 ^ w }
{
    (x >> w, x & ((1 << w) - 1))
}

/// b b + a b + a a c, which is 0 only where a t + b is.
fn norm<F: Field>(base: &F, a: u16, b: u16) -> Result<u16, Fault>
    ensures { result ≡ norm_answer (F.meaning base.now) a b }
{
    let aa = base.product(a, a)?;
    let low = base.product(b, a ^ b)?;
    let high = base.product(aa, base.c())?;
    Ok(low ^ high)
}

/// The product of two pairs over a field of at most 4 bits.
fn pair_product<F: Field>(base: &F, x: u16, y: u16) -> Result<u16, Fault>
    requires { (F.meaning base.now).width ≤ 4 }
    ensures { result ≡ product_answer (doubled (F.meaning base.now)) x y }
{
    let w = base.width();
    let (a, b) = coefficients(w, x);
    let (d, e) = coefficients(w, y);
    // (a + b) (d + e) + b e is the sum of the three products that have a factor t
    let ad = base.product(a, d)?;
    let be = base.product(b, e)?;
    let all = base.product(a ^ b, d ^ e)?;
    let adc = base.product(ad, base.c())?;
    Ok((all ^ be) << w | (be ^ adc))
}

/// The inverse of a pair over a field of at most 4 bits, by the inverse of its norm.
fn pair_inverse<F: Field>(base: &F, x: u16) -> Result<u16, Fault>
    requires { (F.meaning base.now).width ≤ 4 }
    ensures { result ≡ inverse_answer (doubled (F.meaning base.now)) x }
{
    let w = base.width();
    let (a, b) = coefficients(w, x);
    let n = norm(base, a, b)?;
    let inverse = base.inverse(n)?;
    let up = base.product(a, inverse)?;
    let down = base.product(a ^ b, inverse)?;
    Ok(up << w | down)
}

impl<F: Field> Field for Pair<F> {
    ghost meaning = { λ p. pair (F.meaning p.base) };

    ghost lawful = { λ p. pair_laws (F.meaning p.base) (F.lawful p.base) };

    fn width(&self) -> u8 {
        // asked once: twice at each level would be 2 to the depth where pairs are nested
        let w = self.base.width();
        if w <= 4 { w + w } else { w }
    }

    fn c(&self) -> u16 {
        if self.has_pairs() {
            self.base.c() << self.base.width()
        } else {
            self.base.c()
        }
    }

    fn product(&self, x: u16, y: u16) -> Result<u16, Fault> {
        if self.has_pairs() {
            pair_product(&self.base, x, y)
        } else {
            self.base.product(x, y)
        }
    }

    fn inverse(&self, x: u16) -> Result<u16, Fault> {
        if self.has_pairs() {
            pair_inverse(&self.base, x)
        } else {
            self.base.inverse(x)
        }
    }

    fn roll(&self, i: u16) -> Result<u16, Fault> {
        if self.has_pairs() {
            Ok(self.roll_index(i)? + 1)
        } else {
            self.base.roll(i)
        }
    }
}
