//! Single parity: the symbols of a word sum to zero.
#![tactic(auto)]

ghost use Rattle.std.specs.Prelude.{◌≡◌, ◌≤◌, Ok, Err};
ghost use Rattle.faults.specs.Table.{parity_length};
ghost use Rattle.codes.specs.Systematic.{parity, parity_generator};
ghost use Rattle.codes.proofs.Families.{parity_laws, parity_generates};

use codes::Code;
use faults::{CodeCause, Fault};
use fields::Field;
use std::alloc::AllocError;

/// How many checks there are.
const CHECKS: usize = 1;

/// A code of 2 to 512 places, with one check that sums them all.
#[derive(Copy)]
pub struct Parity<B> {
    base: B,
    length: usize,
    ghost enough: { 2 ≤ length },
    ghost few: { length ≤ 512 },
}

// by hand: no derive writes the clone of a generic struct with a ghost field
impl<B: Copy> Clone for Parity<B> {
    ghost is_clone = { λ c d. d ≡ c };

    ghost is_infallible = { λ _. Unit {0} };

    fn clone(&self) -> Result<Parity<B>, AllocError> {
        Ok(*self)
    }
}

impl<B: Field + Copy> Parity<B> {
    /// The code of `length` places; 24 for a length outside 2 to 512.
    pub fn new(base: B, length: usize) -> Result<Parity<B>, Fault>
        ensures { elim result [ Ok c ↦ parity (B.meaning c.base) c.length ≡ parity (B.meaning base) length | Err fault ↦ (fault ≡ parity_length) × (2 ≤ length → length ≤ 512 → ⊥) ] }
    {
        if !(2..=512).contains(&length) {
            return Err(Fault::from(CodeCause::ParityLength));
        }
        Ok(Parity { base, length })
    }
}

impl<B: Field> Code for Parity<B> {
    type F = B;

    ghost meaning = { λ c. parity (B.meaning c.base) c.length };

    ghost generating = { λ c. parity_generator c.length };

    ghost lawful = { λ c. parity_laws (B.meaning c.base) (B.lawful c.base) c.length c.enough c.few };

    ghost generates = { λ c. parity_generates (B.meaning c.base) (B.lawful c.base) c.length c.enough };

    fn field(&self) -> &B {
        &self.base
    }

    fn places(&self) -> usize {
        self.length
    }

    fn checks(&self) -> usize {
        CHECKS
    }

    fn dimension(&self) -> usize {
        self.places() - 1
    }

    fn entry(&self, check: usize, place: usize) -> Result<u16, Fault> {
        self.check(check)?;
        self.place(place)?;
        Ok(1)
    }

    fn message_place(&self, index: usize) -> Result<usize, Fault> {
        self.index(index)
    }

    fn generator(&self, index: usize, place: usize) -> Result<u16, Fault> {
        let index = self.index(index)?;
        let place = self.place(place)?;
        Ok(u16::from(place == index || place == self.dimension()))
    }
}
