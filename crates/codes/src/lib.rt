//! The interface of a code, what a code means, and the laws that every code keeps.
#![tactic(auto)]

ghost use Rattle.std.specs.Prelude.{◌≡◌, ℕ};
ghost use Rattle.codes.specs.Words.{CodeMeaning, CodeLaws, Generates};
ghost use Rattle.codes.specs.Answers.{check_answer, place_answer, index_answer, entry_answer, message_place_answer, generator_answer};
ghost use Rattle.codes.specs.Theorems.{SumIsWord, MessageTellsWord};

use faults::{CodeCause, Fault};
use fields::Field;

/// A code of n places and r checks over a field, in which every message of k symbols stands in one word.
pub trait Code {
    type F: Field;

    // what the code means
    ghost meaning: { Self → CodeMeaning };

    // its generator
    ghost generating: { Self → ℕ → ℕ → ℕ };

    // the laws that it keeps, which each kind proves
    ghost lawful: { (c : Self) → CodeLaws (meaning c) };

    ghost generates: { (c : Self) → Generates (meaning c) (generating c) };

    /// The code's field.
    fn field(&self) -> &Self::F
        ensures { Self.F.meaning result.now ≡ (meaning self.now).field };

    /// n, how many symbols a word has.
    fn places(&self) -> usize
        ensures { result ≡ (meaning self.now).places };

    /// r, how many checks there are.
    fn checks(&self) -> usize
        ensures { result ≡ (meaning self.now).checks };

    /// k, how many symbols a message has.
    fn dimension(&self) -> usize
        ensures { result ≡ (meaning self.now).dimension };

    /// The check itself; 21 for no check.
    fn check(&self, check: usize) -> Result<usize, Fault>
        ensures { result ≡ check_answer (meaning self.now) check }
    {
        if check >= self.checks() {
            return Err(Fault::from(CodeCause::Check));
        }
        Ok(check)
    }

    /// The place itself; 22 for no place.
    fn place(&self, place: usize) -> Result<usize, Fault>
        ensures { result ≡ place_answer (meaning self.now) place }
    {
        if place >= self.places() {
            return Err(Fault::from(CodeCause::Place).at(place));
        }
        Ok(place)
    }

    /// The index itself; 23 for no index of a message symbol.
    fn index(&self, index: usize) -> Result<usize, Fault>
        ensures { result ≡ index_answer (meaning self.now) index }
    {
        if index >= self.dimension() {
            return Err(Fault::from(CodeCause::MessageIndex));
        }
        Ok(index)
    }

    /// What a check multiplies the symbol at a place by; 21 for no check, then 22 for no place.
    fn entry(&self, check: usize, place: usize) -> Result<u16, Fault>
        ensures { result ≡ entry_answer (meaning self.now) check place };

    /// Where a word has the message symbol of an index; 23 for no index.
    fn message_place(&self, index: usize) -> Result<usize, Fault>
        ensures { result ≡ message_place_answer (meaning self.now) index };

    /// The generator's entry for a message symbol and a place; 23 for no index, then 22 for no place.
    fn generator(&self, index: usize, place: usize) -> Result<u16, Fault>
        ensures { result ≡ generator_answer (meaning self.now) (generating self.now) index place };

    /// n and k: the sum of two words is a word, a word is told by its message, and it is its message times the generator.
    fn parameters(&self) -> (usize, usize)
        ensures length { result.0 ≡ (meaning self.now).places }
        ensures dimension { result.1 ≡ (meaning self.now).dimension }
        ensures linear { SumIsWord (meaning self.now) }
        ensures told { MessageTellsWord (meaning self.now) }
        ensures generated { Generates (meaning self.now) (generating self.now) }
    {
        (self.places(), self.dimension())
    }
}
