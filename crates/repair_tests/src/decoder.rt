//! A decoder that tries every assignment of the lost places.
use codes::Code;
use fields::Field;
use repair::Verdict;
use std::test::Fail;

/// Whether every check sums to zero.
fn is_word<C: Code>(code: &C, symbols: &[u16]) -> Result<bool, Fail> {
    for j in 0..code.checks() {
        let mut sum = 0;
        for (p, x) in symbols.iter().enumerate() {
            sum ^= code.field().product(code.entry(j, p)?, *x)?;
        }
        if sum != 0 {
            return Ok(false);
        }
    }
    Ok(true)
}

/// The next assignment of the lost places, as a number with a digit for each; false after the last.
fn advance<const N: usize>(word: &mut [u16; N], cells: &[Option<u16>; N], q: usize) -> bool {
    for (x, cell) in word.iter_mut().zip(cells) {
        if cell.is_none() {
            *x = x.wrapping_add(1);
            if usize::from(*x) < q {
                return true;
            }
            *x = 0;
        }
    }
    false
}

/// The symbols of a word, and zeros behind them.
fn with_zeros<const N: usize>(word: &[u16; N]) -> [u16; 512] {
    let mut symbols = [0; 512];
    for (symbol, x) in symbols.iter_mut().zip(word) {
        *symbol = *x;
    }
    symbols
}

/// What a repair should answer: how many words agree with the cells, all of which hold elements, and the word if it is one.
pub(crate) fn decode<C: Code, const N: usize>(
    code: &C,
    cells: &[Option<u16>; N],
) -> Result<Verdict, Fail> {
    let mut word = [0; N];
    for (x, cell) in word.iter_mut().zip(cells) {
        *x = cell.unwrap_or(0);
    }
    let mut verdict = Verdict::NoWord;
    for _ in 0..u64::MAX {
        if is_word(code, &word)? {
            if verdict != Verdict::NoWord {
                return Ok(Verdict::SeveralWords);
            }
            verdict = Verdict::OneWord(with_zeros(&word));
        }
        if !advance(&mut word, cells, code.field().size()) {
            break;
        }
    }
    Ok(verdict)
}
