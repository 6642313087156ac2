//! Shapes, entries, generators and refusals of every kind of code.
use super::reference::{BIT, GF8, GF16, Reference, Tower};
use array_codes::Array;
use binary_fields::{Bit, Gf256, Table};
use codes::Code;
use extended_codes::FourTimes;
use faults::{CodeCause, Fault};
use fields::Field;
use pair_fields::Pair;
use parity_codes::Parity;
use std::process::Abort;
use std::test::Fail;

/// n, r and k.
fn check_shape<C: Code>(rt: &impl Abort, code: &C, n: usize, r: usize, k: usize) {
    assert_eq!(rt; code.places(), n);
    assert_eq!(rt; code.checks(), r);
    assert_eq!(rt; code.dimension(), k);
    assert_eq!(rt; code.parameters(), (n, k));
}

/// The refusals at the least argument that draws them, and which comes first.
fn check_refusals<C: Code>(rt: &impl Abort, code: &C) {
    let (n, r, k) = (code.places(), code.checks(), code.dimension());
    let no_place = Fault::from(CodeCause::Place);
    let no_index = Fault::from(CodeCause::MessageIndex);
    assert_eq!(rt; code.entry(r, n), Err(Fault::from(CodeCause::Check)));
    assert_eq!(rt; code.check(r), Err(Fault::from(CodeCause::Check)));
    assert_eq!(rt; code.place(n), Err(no_place.at(n)));
    assert_eq!(rt; code.index(k), Err(no_index));
    assert_eq!(rt; code.message_place(k), Err(no_index));
    assert_eq!(rt; code.generator(k, n), Err(no_index));
    if r > 0 {
        for p in [n, usize::MAX] {
            assert_eq!(rt; code.entry(0, p), Err(no_place.at(p)));
        }
    }
    if k > 0 {
        assert_eq!(rt; code.generator(0, n), Err(no_place.at(n)));
    }
}

/// Every entry, and the numbers of the checks, places and message symbols themselves.
fn check_entries<C: Code, E: Fn(usize, usize) -> Result<u16, Fail>>(
    rt: &impl Abort,
    code: &C,
    expected: E,
) -> Result<(), Fail>
    requires { E.IsAlwaysCallable expected }
{
    for j in 0..code.checks() {
        assert_eq!(rt; code.check(j), Ok(j));
        for p in 0..code.places() {
            assert_eq!(rt; code.place(p), Ok(p));
            assert_eq!(rt; code.entry(j, p)?, expected(j, p)?);
        }
    }
    for i in 0..code.dimension() {
        assert_eq!(rt; code.index(i), Ok(i));
    }
    Ok(())
}

/// Check `j` of row `i` of the generator, with the reference's products.
fn check_sum<C: Code, R: Reference>(
    code: &C,
    reference: &R,
    i: usize,
    j: usize,
) -> Result<u16, Fail> {
    let mut sum = 0;
    for p in 0..code.places() {
        sum ^= reference.product(code.entry(j, p)?, code.generator(i, p)?);
    }
    Ok(sum)
}

/// Each row of the generator is a word, and its message is a unit.
fn check_generator<C: Code, R: Reference>(
    rt: &impl Abort,
    code: &C,
    reference: &R,
) -> Result<(), Fail> {
    for i in 0..code.dimension() {
        for j in 0..code.checks() {
            assert_eq!(rt; check_sum(code, reference, i, j)?, 0);
        }
        for l in 0..code.dimension() {
            assert_eq!(rt;
                code.generator(i, code.message_place(l)?)?,
                u16::from(l == i)
            );
        }
    }
    Ok(())
}

/// The entry of the four times extended code, from the reference's products and rolls.
fn four_times_entry<R: Reference>(reference: &R, check: usize, place: usize) -> Result<u16, Fail> {
    let points = usize::from(reference.size()).saturating_sub(1);
    if place >= points {
        return Ok(u16::from(check == place - points));
    }
    let x = reference.roll(u16::try_from(points - 1 - place)?);
    Ok(reference.power(x, check))
}

/// The four times extended code over a field.
fn check_four_times<F: Field + Copy, R: Reference>(
    rt: &impl Abort,
    field: F,
    reference: &R,
) -> Result<(), Fail> {
    let q = usize::from(reference.size());
    let code = FourTimes::over(field);
    check_shape(rt, &code, q + 3, 4, q.saturating_sub(1));
    check_entries(rt, &code, |j, p| four_times_entry(reference, j, p))?;
    assert_eq!(rt; code.erasures(), 3);
    check_generator(rt, &code, reference)?;
    check_refusals(rt, &code);
    Ok(())
}

#[test]
fn four_times(rt: HostRuntime) -> Result<(), Fail> {
    check_four_times(&rt, Bit, &BIT)?;
    check_four_times(&rt, Table::Gf8, &GF8)?;
    check_four_times(&rt, Table::Gf16, &GF16)?;
    let tower = Tower { base: BIT };
    check_four_times(&rt, Pair::over(Bit), &tower)?;
    check_four_times(&rt, Pair::over(Pair::over(Bit)), &Tower { base: tower })?;
    check_shape(&rt, &FourTimes::over(Gf256), 259, 4, 255);
    Ok(())
}

/// The rows of the GF(8) code at its seven points, as powers of 2.
const EXPONENTS: [[u16; 7]; 4] = [
    [0, 0, 0, 0, 0, 0, 0],
    [6, 5, 4, 3, 2, 1, 0],
    [5, 3, 1, 6, 4, 2, 0],
    [4, 1, 5, 2, 6, 3, 0],
];

/// The entries of the GF(8) code, and its unit columns.
fn check_matrix<C: Code>(rt: &impl Abort, code: &C) -> Result<(), Fail> {
    for (j, row) in EXPONENTS.iter().enumerate() {
        for (p, exponent) in row.iter().enumerate() {
            assert_eq!(rt; code.entry(j, p)?, GF8.roll(*exponent));
        }
        for i in 0..4usize {
            assert_eq!(rt; code.entry(j, i + 7)?, u16::from(i == j));
        }
    }
    Ok(())
}

#[test]
fn matrix(rt: HostRuntime) -> Result<(), Fail> {
    check_matrix(&rt, &FourTimes::over(Table::Gf8))
}

/// The parity code of a length over a field.
fn check_parity<F: Field + Copy, R: Reference>(
    rt: &impl Abort,
    field: F,
    reference: &R,
    n: usize,
) -> Result<(), Fail> {
    let code = Parity::new(field, n)?;
    check_shape(rt, &code, n, 1, n.saturating_sub(1));
    check_entries(rt, &code, |_, _| Ok(1))?;
    check_generator(rt, &code, reference)?;
    check_refusals(rt, &code);
    Ok(())
}

#[test]
fn parity(rt: HostRuntime) -> Result<(), Fail> {
    check_parity(&rt, Bit, &BIT, 2)?;
    check_parity(&rt, Table::Gf8, &GF8, 6)?;
    check_parity(&rt, Table::Gf16, &GF16, 31)?;
    let tower = Tower { base: BIT };
    check_parity(&rt, Pair::over(Bit), &tower, 7)?;
    check_parity(&rt, Pair::over(Pair::over(Bit)), &Tower { base: tower }, 5)?;
    for length in [0, 1, 513, usize::MAX] {
        assert_eq!(rt;
            Parity::new(Bit, length).err(),
            Some(Fault::from(CodeCause::ParityLength))
        );
    }
    check_shape(&rt, &Parity::new(Gf256, 512)?, 512, 1, 511);
    Ok(())
}

/// 2 to the power `b`.
fn power_of_two(b: usize) -> u16 {
    if b < 16 { 1 << b } else { 0 }
}

/// The entry of an array, from the entries of the code below and the reference's products.
fn array_entry<V: Code, R: Reference>(
    code: &V,
    reference: &R,
    check: usize,
    place: usize,
) -> Result<u16, Fail> {
    let w = usize::from(reference.width());
    let (row, column) = (place / (w + 1), place % (w + 1));
    let Some(bit) = check.checked_sub(code.places()) else {
        return Ok(u16::from(check == row));
    };
    if column == w {
        return Ok(0);
    }
    let z = reference.product(code.entry(bit / w, row)?, power_of_two(column));
    Ok(u16::from(z & power_of_two(bit % w) != 0))
}

/// The array over a code.
fn check_array<V: Code + Copy, R: Reference>(
    rt: &impl Abort,
    code: V,
    reference: &R,
) -> Result<(), Fail> {
    let array = Array::over(code);
    array.fits()?;
    check_entries(rt, &array, |j, p| array_entry(&code, reference, j, p))?;
    check_generator(rt, &array, &BIT)?;
    check_refusals(rt, &array);
    Ok(())
}

/// An array that does not fit is the code of no places.
fn check_too_large<V: Code + Copy>(rt: &impl Abort, code: V) {
    let array = Array::over(code);
    check_shape(rt, &array, 0, 0, 0);
    assert_eq!(rt; array.fits(), Err(Fault::from(CodeCause::ArraySize)));
    check_refusals(rt, &array);
}

#[test]
fn arrays(rt: HostRuntime) -> Result<(), Fail> {
    let over8 = FourTimes::over(Table::Gf8);
    let over16 = FourTimes::over(Table::Gf16);
    check_shape(&rt, &Array::over(over8), 44, 23, 21);
    check_shape(&rt, &Array::over(over16), 95, 35, 60);
    check_array(&rt, over8, &GF8)?;
    check_array(&rt, over16, &GF16)?;
    check_array(&rt, FourTimes::over(Bit), &BIT)?;
    check_array(&rt, Array::over(FourTimes::over(Bit)), &BIT)?;
    check_array(&rt, FourTimes::over(Pair::over(Bit)), &Tower { base: BIT })?;
    check_array(&rt, Parity::new(Table::Gf8, 6)?, &GF8)?;
    check_too_large(&rt, FourTimes::over(Gf256));
    check_shape(&rt, &Array::over(Parity::new(Bit, 95)?), 190, 96, 94);
    check_too_large(&rt, Parity::new(Bit, 96)?);
    check_shape(&rt, &Array::over(Parity::new(Gf256, 56)?), 504, 64, 440);
    check_too_large(&rt, Parity::new(Gf256, 57)?);
    Ok(())
}
