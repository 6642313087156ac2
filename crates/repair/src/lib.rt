//! Repair: which words of a code agree with what is held.
#![tactic(auto)]

ghost use Rattle.std.specs.Prelude.{◌≡◌, ℕ, ◌<◌, slice_index};
ghost use Rattle.fields.specs.Meaning.{size};
ghost use Rattle.codes.specs.Words.{sum};
ghost use Rattle.erasures.specs.Agreement.{held, holding};
ghost use Rattle.erasures.specs.Elimination.{times, Elements, received};
ghost use Rattle.repair.specs.Verdicts.{Decides};

use arithmetic::{dot_product, entry, tabulate};
use codes::Code;
use elimination::Elimination;

mod arithmetic;
mod cells;
mod elimination;
mod rows;

pub use cells::symbol;

/// How many words of a code agree with every held place.
#[derive(Clone, Copy, PartialEq, Eq, Debug)]
pub enum Verdict {
    /// No word agrees: there is nothing to repair to. A mend refuses this with 41.
    NoWord,
    /// One word agrees, and every other word differs at a held place: the repair. It has as many symbols as the
    /// code has places, and zeros stand behind them.
    OneWord([u16; 512]),
    /// Two words agree, or more: what is held does not tell which it was. A mend refuses this with 42.
    SeveralWords,
}

/// The symbols that are held, and zeros where one is lost.
fn receive<C: Code>(code: &C, cells: &[Option<u16>]) -> [u16; 512]
    ensures elements { Elements (C.meaning code.now).field result }
    ensures value { (p : ℕ) → slice_index result p ≡ received (held (C.meaning code.now) cells.now p) }
{
    tabulate(
        code.places(),
        |place| symbol(code, cells, place).unwrap_or(0),
    )
}

/// What a check sums to.
fn check_sum<C: Code>(code: &C, check: usize, word: &[u16; 512]) -> u16
    requires check { check < (C.meaning code.now).checks }
    requires elements { Elements (C.meaning code.now).field word.now }
    ensures element { result < size (C.meaning code.now).field }
    ensures value { result ≡ sum (C.meaning code.now).places (λ p. times (C.meaning code.now).field ((C.meaning code.now).entry check p) (slice_index word.now p)) }
{
    dot_product(
        code,
        |place| entry(code, check, place),
        &word[..code.places()],
    )
}

/// What each check sums to.
fn syndrome<C: Code>(code: &C, word: &[u16; 512]) -> [u16; 96]
    requires { Elements (C.meaning code.now).field word.now }
    ensures elements { Elements (C.meaning code.now).field result }
    ensures value { (j : ℕ) → j < (C.meaning code.now).checks → slice_index result j ≡ sum (C.meaning code.now).places (λ p. times (C.meaning code.now).field ((C.meaning code.now).entry j p) (slice_index word.now p)) }
{
    tabulate(code.checks(), |check| check_sum(code, check, word))
}

/// Decides, given the symbols that are held, with zeros where one is lost.
fn decide<C: Code>(code: &C, cells: &[Option<u16>], mut word: [u16; 512]) -> Verdict
    requires elements { Elements (C.meaning code.now).field word }
    requires received { (p : ℕ) → slice_index word p ≡ received (held (C.meaning code.now) cells.now p) }
    ensures { Decides (C.meaning code.now) (holding (held (C.meaning code.now) cells.now)) result }
{
    let mut elimination = Elimination::new();
    elimination.run(code, cells, &syndrome(code, &word));
    if elimination.contradicted(code) {
        return Verdict::NoWord;
    }
    if elimination.undetermined.is_some() {
        return Verdict::SeveralWords;
    }
    elimination.fill(code, &mut word);
    Verdict::OneWord(word)
}

/// Decides whether no word of the code, one or more than one agrees with every held place, and gives the word where there
/// is one. The cell of a place counts as held where the place is one of the code's and the symbol one of the field's, and
/// as lost otherwise, also where there is no such cell.
pub fn repair<C: Code>(code: &C, cells: &[Option<u16>]) -> Verdict
    ensures { Decides (C.meaning code.now) (holding (held (C.meaning code.now) cells.now)) result }
{
    decide(code, cells, receive(code, cells))
}
