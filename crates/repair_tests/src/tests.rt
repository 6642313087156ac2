//! Every pattern of lost places of small codes, in words and in what is none.
ghost use Rattle.std.specs.Prelude.{◌≤◌};

use super::decoder::decode;
use array_codes::Array;
use binary_fields::{Bit, Gf256, Table};
use codes::Code;
use extended_codes::FourTimes;
use fields::Field;
use pair_fields::Pair;
use parity_codes::Parity;
use repair::{Verdict, repair};
use std::process::Abort;
use std::test::Fail;

/// What is held of symbols where the bits of a pattern name the lost places.
fn lose<const N: usize>(symbols: &[u16; N], pattern: u32) -> [Option<u16>; N]
    requires { N ≤ 64 }
{
    let mut cells = [None; N];
    let mut rest = pattern;
    for (cell, x) in cells.iter_mut().zip(symbols) {
        if rest & 1 == 0 {
            *cell = Some(*x);
        }
        rest >>= 1;
    }
    cells
}

/// A pattern of lost places.
fn check_pattern<C: Code, const N: usize>(
    rt: &impl Abort,
    code: &C,
    symbols: &[u16; N],
    pattern: u32,
) -> Result<(), Fail>
    requires { N ≤ 64 }
{
    let cells = lose(symbols, pattern);
    assert!(rt; repair(code, &cells) == decode(code, &cells)?);
    Ok(())
}

/// Every pattern with at most so many lost places.
fn check_patterns<C: Code, const N: usize>(
    rt: &impl Abort,
    code: &C,
    symbols: &[u16; N],
    most: u32,
) -> Result<(), Fail>
    requires { N ≤ 64 }
{
    for pattern in 0..1u32.wrapping_shl(u32::try_from(code.places())?) {
        if pattern.count_ones() <= most {
            check_pattern(rt, code, symbols, pattern)?;
        }
    }
    Ok(())
}

/// The word of a message with one symbol that is not 0.
fn generated<C: Code, const N: usize>(
    code: &C,
    index: usize,
    factor: u16,
) -> Result<[u16; N], Fail> {
    let mut word = [0; N];
    for (p, x) in word.iter_mut().enumerate() {
        *x = code.field().product(factor, code.generator(index, p)?)?;
    }
    Ok(word)
}

/// Patterns in the zero word, in another word, and in that word with one symbol changed.
fn check_code<C: Code, const N: usize>(
    rt: &impl Abort,
    code: &C,
    factor: u16,
    most: u32,
) -> Result<(), Fail>
    requires { N ≤ 64 }
{
    let zeros: [u16; N] = [0; N];
    check_patterns(rt, code, &zeros, most)?;
    let word: [u16; N] = generated(code, code.dimension().saturating_sub(1), factor)?;
    check_patterns(rt, code, &word, most)?;
    let mut damaged = word;
    if let Some(x) = damaged.first_mut() {
        *x ^= 1;
    }
    check_patterns(rt, code, &damaged, most)
}

#[test]
fn parity(rt: HostRuntime) -> Result<(), Fail> {
    check_code::<_, 6>(&rt, &Parity::new(Table::Gf8, 6)?, 5, 6)
}

#[test]
fn four_times_over_pairs(rt: HostRuntime) -> Result<(), Fail> {
    check_code::<_, 7>(&rt, &FourTimes::over(Pair::over(Bit)), 3, 7)
}

#[test]
fn four_times_over_bits(rt: HostRuntime) -> Result<(), Fail> {
    check_code::<_, 5>(&rt, &FourTimes::over(Bit), 1, 5)
}

#[test]
fn four_times(rt: HostRuntime) -> Result<(), Fail> {
    check_code::<_, 11>(&rt, &FourTimes::over(Table::Gf8), 6, 3)
}

/// Four lost places, of which some can be worked back and some cannot, and five, in a word and in what is none.
#[test]
fn four_and_five_lost(rt: HostRuntime) -> Result<(), Fail> {
    let code = FourTimes::over(Table::Gf8);
    let word: [u16; 11] = generated(&code, 2, 7)?;
    let damaged = word.map(|x| x ^ 1);
    for pattern in [0x00f, 0x268, 0x780, 0x078, 0x01f, 0x6a1] {
        check_pattern(&rt, &code, &word, pattern)?;
        check_pattern(&rt, &code, &damaged, pattern)?;
    }
    Ok(())
}

#[test]
fn array_of_bits(rt: HostRuntime) -> Result<(), Fail> {
    check_code::<_, 10>(&rt, &Array::over(FourTimes::over(Bit)), 1, 10)
}

#[test]
fn empty(rt: HostRuntime) {
    let code = Array::over(FourTimes::over(Gf256));
    assert!(rt; repair(&code, &[]) == Verdict::OneWord([0; 512]));
    assert!(rt; repair(&code, &[Some(1), None]) == Verdict::OneWord([0; 512]));
}
