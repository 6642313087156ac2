//! The array over a code: its symbols as rows of bits, each with a parity behind it.
#![tactic(auto)]

ghost use Rattle.std.specs.Prelude.{◌≡◌, ℕ, ◌/◌, ◌%◌, ◌^◌, ◌<◌, ◌≤◌, Ok};
ghost use Rattle.codes.specs.Words.{sum};
ghost use Rattle.codes.specs.Arrays.{bit, array, array_entry, array_message_place, array_fits, fits_answer, array_generator};
ghost use Rattle.codes.specs.Theorems.{WordsAreRows};
ghost use Rattle.codes.proofs.ArrayLaws.{array_laws};
ghost use Rattle.codes.proofs.ArrayWords.{array_generates};

use binary_fields::Bit;
use codes::Code;
use faults::{CodeCause, Fault};
use fields::Field;

/// A row for each place of a code: the bits of its symbol, the lowest first, and their exclusive or.
/// An array of more than 512 places or 96 checks is the code of no places.
#[derive(Clone, Copy)]
pub struct Array<V> {
    code: V,
    bits: Bit,
}

impl<V: Code> Array<V> {
    /// The array over a code.
    pub fn over(code: V) -> Array<V>
        ensures code { result.code ≡ code }
        ensures meaning { array (V.meaning result.code) ≡ array (V.meaning code) }
    {
        Array { code, bits: Bit }
    }

    /// Whether the array has at most 512 places and 96 checks; 25 where it has more.
    /// Where it fits, its words are just the rows of the words of the code below.
    pub fn fits(&self) -> Result<(), Fault>
        ensures value { result ≡ fits_answer (V.meaning self.now.code) }
        ensures words { WordsAreRows (V.meaning self.now.code) }
    {
        if !small_enough(&self.code) {
            return Err(Fault::from(CodeCause::ArraySize));
        }
        Ok(())
    }
}

/// How many bits a symbol has.
fn bits<V: Code>(code: &V) -> usize
    ensures value { result ≡ (V.meaning code.now).field.width }
    ensures some { 1 ≤ result }
    ensures few { result ≤ 8 }
{
    usize::from(code.field().width())
}

/// How many symbols a message has: no more than there are places.
#[tactic(auto, using(codes::proofs::Pigeonhole::few_symbols))]
fn symbols<V: Code>(code: &V) -> usize
    ensures value { result ≡ (V.meaning code.now).dimension }
    ensures few { result ≤ 512 }
{
    code.dimension()
}

/// Whether the array has at most 512 places and 96 checks.
fn small_enough<V: Code>(code: &V) -> bool
    ensures { result ≡ array_fits (V.meaning code.now) }
{
    let (rows, checks, w) = (code.places(), code.checks(), bits(code));
    rows * (w + 1) <= 512 && rows + checks * w <= 96
}

/// `x` times 2 to the power `b`, both elements of the code's field.
#[tactic(auto, using(crate::proofs::Products::times_bit_is))]
fn times_bit<V: Code>(code: &V, x: u16, b: usize) -> Result<u16, Fault>
    requires element { x < 2 ^ (V.meaning code.now).field.width }
    requires bit { b < (V.meaning code.now).field.width }
    ensures { result ≡ Ok ((V.meaning code.now).field.product x (2 ^ b)) }
{
    code.field().product(x, 1 << b)
}

/// The exclusive or of the lowest `w` bits.
fn parity(w: usize, x: u16) -> u16
    requires { w ≤ 8 }
    ensures { result ≡ sum w (bit x) }
{
    let mut odd = 0;
    for b in 0..w {
        odd ^= x >> b & 1;
    }
    odd
}

/// The entry of a check of the array at a place.
fn check_entry<V: Code>(code: &V, check: usize, place: usize) -> Result<u16, Fault>
    requires check { check < (array (V.meaning code.now)).checks }
    requires place { place < (array (V.meaning code.now)).places }
    ensures { result ≡ Ok (array_entry (V.meaning code.now) check place) }
{
    let (rows, w) = (code.places(), bits(code));
    let (row, column) = (place / (w + 1), place % (w + 1));
    if check < rows {
        return Ok(u16::from(check == row));
    }
    if column >= w {
        return Ok(0);
    }
    let entry = code.entry((check - rows) / w, row)?;
    let z = times_bit(code, entry, column)?;
    Ok(z >> ((check - rows) % w) & 1)
}

/// The place of a message bit.
fn bit_place<V: Code>(code: &V, index: usize) -> Result<usize, Fault>
    requires { index < (array (V.meaning code.now)).dimension }
    ensures { result ≡ Ok (array_message_place (V.meaning code.now) index) }
{
    let w = bits(code);
    let row = code.message_place(index / w)?;
    Ok(row * (w + 1) + index % w)
}

/// The generator's entry for a message bit at a place.
fn generator_entry<V: Code>(code: &V, index: usize, place: usize) -> Result<u16, Fault>
    requires index { index < (array (V.meaning code.now)).dimension }
    requires place { place < (array (V.meaning code.now)).places }
    ensures { result ≡ Ok (array_generator (V.meaning code.now) (V.generating code.now) index place) }
{
    let w = bits(code);
    let (row, column) = (place / (w + 1), place % (w + 1));
    let entry = code.generator(index / w, row)?;
    let z = times_bit(code, entry, index % w)?;
    Ok(if column < w {
        z >> column & 1
    } else {
        parity(w, z)
    })
}

impl<V: Code> Code for Array<V> {
    type F = Bit;

    ghost meaning = { λ c. array (V.meaning c.code) };

    ghost generating = { λ c. array_generator (V.meaning c.code) (V.generating c.code) };

    ghost lawful = { λ c. array_laws (V.meaning c.code) (V.lawful c.code) };

    ghost generates = { λ c. array_generates (V.meaning c.code) (V.lawful c.code) (V.generating c.code) (V.generates c.code) };

    fn field(&self) -> &Bit {
        &self.bits
    }

    fn places(&self) -> usize {
        if small_enough(&self.code) {
            self.code.places() * (bits(&self.code) + 1)
        } else {
            0
        }
    }

    fn checks(&self) -> usize {
        if small_enough(&self.code) {
            self.code.places() + self.code.checks() * bits(&self.code)
        } else {
            0
        }
    }

    fn dimension(&self) -> usize {
        if small_enough(&self.code) {
            symbols(&self.code) * bits(&self.code)
        } else {
            0
        }
    }

    fn entry(&self, check: usize, place: usize) -> Result<u16, Fault> {
        let check = self.check(check)?;
        let place = self.place(place)?;
        check_entry(&self.code, check, place)
    }

    fn message_place(&self, index: usize) -> Result<usize, Fault> {
        let index = self.index(index)?;
        bit_place(&self.code, index)
    }

    fn generator(&self, index: usize, place: usize) -> Result<u16, Fault> {
        let index = self.index(index)?;
        let place = self.place(place)?;
        generator_entry(&self.code, index, place)
    }
}
