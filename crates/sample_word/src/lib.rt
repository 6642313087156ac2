//! Seven symbols of GF(8) laid out as a word of eleven of the four times extended code.
#![tactic(auto)]

ghost use Rattle.std.specs.Prelude.{◌≡◌, ℕ, ◌<◌, map, length, IfOk, MatchResult, Ok, Err, string_bytes};
ghost use Rattle.binary_fields.specs.declared.table.Table.TheVariants.{Gf8};
ghost use Rattle.codes.specs.Words.{Word, Message, Carries};
ghost use Rattle.sample_word.specs.Answers.{accept_answer, encode_answer, demonstration, demonstrate_answer, numbers_answer, read_answer};
ghost use Rattle.sample_word.specs.Numbers.{number_of};
ghost use Rattle.sample_word.specs.Sample.{sample, Elements, IsSumOfProducts, symbol_of, encoded, row_sum, all_row_sums, erased, filled};

use binary_fields::Table;
use codes::Code;
use extended_codes::FourTimes;
use faults::{Fault, LineCause, SheetCause};
use fields::Field;

/// The four times extended code over GF(8): eleven places, seven of them the message, and four checks.
fn sample_code() -> FourTimes<Table>
    ensures { result.base ≡ Gf8 }
{
    FourTimes::over(Table::Gf8)
}

/// The sum of the products of symbols and their coefficients.
fn sum_of_products<F: Field, C: Fn(usize) -> Result<u16, Fault>>(
    field: &F,
    symbols: &[u16],
    coefficient: C,
) -> Result<u16, Fault>
    requires { (i : ℕ) → i < length symbols.now → C.pre coefficient i }
    ensures { IsSumOfProducts (F.meaning field.now) symbols.now (C.post coefficient) result }
{
    let mut total = 0;
    for (i, x) in symbols.iter().enumerate() {
        total = field.sum(total, field.product(*x, coefficient(i)?)?)?;
    }
    Ok(total)
}

/// What a check sums to.
fn row_sum(word: &[u16; 11], check: usize) -> Result<u16, Fault>
    requires word { Elements word.now }
    requires check { check < 4 }
    ensures { result ≡ Ok (row_sum check word.now) }
{
    let code = sample_code();
    sum_of_products(code.field(), word, |p| code.entry(check, p))
}

/// What the four checks sum to.
fn row_sums(word: &[u16; 11]) -> Result<[u16; 4], Fault>
    requires { Elements word.now }
    ensures { result ≡ Ok (all_row_sums word.now) }
{
    let mut sums = [0; 4];
    for (j, sum) in sums.iter_mut().enumerate() {
        *sum = row_sum(word, j)?;
    }
    Ok(sums)
}

/// Seven symbols that are accepted as a message.
#[derive(Clone, Copy)]
struct Accepted {
    symbols: [u16; 7],
    ghost message: { Message sample symbols },
}

/// The message of seven symbols, each an element; 33 where there are not seven, 11 at the first that is none.
impl TryFrom<&[u16]> for Accepted {
    type Error = Fault;

    ghost try_from_gives = { λ m r. MatchResult r (λ a. (accept_answer m.now ≡ Ok tt) × (a.symbols ≡ m.now)) (λ fault. accept_answer m.now ≡ Err fault) };

    fn try_from(message: &[u16]) -> Result<Accepted, Fault> {
        let symbols = message.as_array().ok_or(Fault::from(SheetCause::Length))?;
        let code = sample_code();
        for (i, x) in symbols.iter().enumerate() {
            code.field().element(*x).map_err(|fault| fault.at(i))?;
        }
        Ok(Accepted { symbols: *symbols })
    }
}

impl Accepted {
    /// The symbol of the message's word at a place: the message times a column of the generator.
    fn symbol(&self, place: usize) -> Result<u16, Fault>
        requires { place < 11 }
        ensures { result ≡ Ok (symbol_of self.now.symbols place) }
    {
        let code = sample_code();
        sum_of_products(code.field(), &self.symbols, |i| code.generator(i, place))
    }

    /// The word of the message: the message times the generator.
    fn lay_out(&self) -> Result<[u16; 11], Fault>
        ensures value { result ≡ Ok (encoded self.now.symbols) }
        ensures word { IfOk result (λ w. Word sample w × Carries sample w self.now.symbols) }
    {
        let mut word = [0; 11];
        for (p, x) in word.iter_mut().enumerate() {
            *x = self.symbol(p)?;
        }
        Ok(word)
    }
}

/// The word of a message; 33 where it has not seven symbols, 11 at the first that is no element.
pub fn encode(message: &[u16]) -> Result<[u16; 11], Fault>
    ensures value { result ≡ encode_answer message.now }
    ensures word { IfOk result (λ w. Word sample w × Carries sample w message.now) }
{
    Accepted::try_from(message)?.lay_out()
}

/// What is received of a word whose symbol at place 3 is erased.
fn erase(word: &[u16; 11]) -> [Option<u16>; 11]
    ensures { result ≡ erased word.now }
{
    let mut received = word.map(Some);
    received[3] = None;
    received
}

/// What is held, with one symbol put at each erasure.
fn fill(received: &[Option<u16>; 11], symbol: u16) -> [u16; 11]
    ensures { result ≡ filled symbol received.now }
{
    received.map(|x| x.unwrap_or(symbol))
}

/// A word, and what becomes of it when a symbol is erased and worked back.
#[derive(Clone, Copy)]
pub struct Demonstration {
    pub word: [u16; 11],
    /// The word with the erasure.
    pub received: [Option<u16>; 11],
    /// What is worked back from `received`.
    pub restored: [u16; 11],
    /// What the checks of `restored` sum to.
    pub row_sums: [u16; 4],
}

/// A word, erased at place 3 and worked back: with 0 there, the first check sums to the erased symbol,
/// since its entry at place 3 is 1.
fn work_back(word: [u16; 11]) -> Result<Demonstration, Fault>
    requires { Word sample word }
    ensures { result ≡ Ok (demonstration word) }
{
    let received = erase(&word);
    let symbol = row_sum(&fill(&received, 0), 0)?;
    let restored = fill(&received, symbol);
    Ok(Demonstration {
        word,
        received,
        restored,
        row_sums: row_sums(&restored)?,
    })
}

/// The word of a message, erased at place 3 and worked back from the first check; refused as `encode` refuses.
pub fn demonstrate(message: &[u16]) -> Result<Demonstration, Fault>
    ensures { result ≡ demonstrate_answer message.now }
{
    work_back(encode(message)?)
}

/// The number that a text of one to three digits writes, with no 0 in front of another digit.
fn number(text: &[u8]) -> Option<u16>
    ensures { result ≡ number_of text.now }
{
    match text {
        [a @ b'0'..=b'9'] => Some(u16::from(*a - b'0')),
        [a @ b'1'..=b'9', b @ b'0'..=b'9'] => {
            Some(u16::from(*a - b'0') * 10 + u16::from(*b - b'0'))
        }
        [a @ b'1'..=b'9', b @ b'0'..=b'9', c @ b'0'..=b'9'] => {
            Some(u16::from(*a - b'0') * 100 + u16::from(*b - b'0') * 10 + u16::from(*c - b'0'))
        }
        _ => None,
    }
}

/// The numbers of seven texts; 54 at the first, counted from 1, that is no number.
fn numbers(arguments: &[String; 7]) -> Result<[u16; 7], Fault>
    ensures { result ≡ numbers_answer (map string_bytes arguments.now) }
{
    let mut message = [0; 7];
    for (i, argument) in arguments.iter().enumerate() {
        let refusal = Fault::from(LineCause::NotANumber).at(i + 1);
        message[i] = number(argument.as_bytes()).ok_or(refusal)?;
    }
    Ok(message)
}

/// The numbers of seven texts; 33 where there are not seven, 54 at the first, counted from 1, that is no number.
pub fn read_message(arguments: &[String]) -> Result<[u16; 7], Fault>
    ensures { result ≡ read_answer string_bytes arguments.now }
{
    let arguments = arguments.as_array().ok_or(Fault::from(SheetCause::Length))?;
    numbers(arguments)
}
