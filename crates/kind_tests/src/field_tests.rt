//! Tables of every product, inverse and roll, and of the refusals at their edges.
use super::reference::{BIT, GF8, GF16, GF256, Reference, Tower};
use binary_fields::{Bit, Gf256, Table};
use faults::{CodeCause, Fault, FieldCause, LineCause, SheetCause};
use fields::Field;
use pair_fields::Pair;
use std::process::Abort;
use std::test::Fail;

/// A refusal as a field answers it.
fn refused(cause: FieldCause) -> Result<u16, Fault> {
    Err(Fault::from(cause))
}

/// Every sum and product of two elements.
fn check_products<F: Field, R: Reference>(rt: &impl Abort, field: &F, reference: &R) {
    for x in 0..reference.size() {
        assert_eq!(rt; field.element(x), Ok(x));
        for y in 0..reference.size() {
            assert_eq!(rt; field.product(x, y), Ok(reference.product(x, y)));
            assert_eq!(rt; field.sum(x, y), Ok(x ^ y));
        }
    }
}

/// Every inverse, and that no z has z z + z = c.
fn check_inverses<F: Field, R: Reference>(
    rt: &impl Abort,
    field: &F,
    reference: &R,
) -> Result<(), Fail> {
    let size = reference.size();
    for x in 1..size {
        let inverse = field.inverse(x)?;
        assert_eq!(rt; field.nonzero(x), Ok(x));
        assert!(rt; inverse < size);
        assert_eq!(rt; reference.product(x, inverse), 1);
    }
    for z in 0..size {
        assert_ne!(rt; reference.product(z, z) ^ z, field.c());
    }
    Ok(())
}

/// Every roll, and that they are all the elements but 0, each once.
fn check_rolls<F: Field, R: Reference>(
    rt: &impl Abort,
    field: &F,
    reference: &R,
) -> Result<(), Fail> {
    let size = reference.size();
    let mut seen = [false; 256];
    for i in 0..size.saturating_sub(1) {
        let x = field.roll(i)?;
        assert_eq!(rt; field.roll_index(i), Ok(i));
        assert_eq!(rt; x, reference.roll(i));
        assert!(rt; x > 0 && x < size && x < 256);
        assert!(rt; !seen[usize::from(x)]);
        seen[usize::from(x)] = true;
    }
    Ok(())
}

/// The least operand that is refused, and the greatest that can be passed.
fn check_refusals<F: Field, R: Reference>(rt: &impl Abort, field: &F, reference: &R) {
    let size = reference.size();
    for x in [size, u16::MAX] {
        for answer in [
            field.sum(x, 0),
            field.sum(0, x),
            field.product(x, 0),
            field.product(0, x),
            field.inverse(x),
            field.element(x),
            field.nonzero(x),
        ] {
            assert_eq!(rt; answer, refused(FieldCause::Operand));
        }
        assert_eq!(rt; field.roll(x), refused(FieldCause::Roll));
        assert_eq!(rt; field.roll_index(x), refused(FieldCause::Roll));
    }
    assert_eq!(rt; field.inverse(0), refused(FieldCause::InverseOfZero));
    assert_eq!(rt; field.nonzero(0), refused(FieldCause::InverseOfZero));
    assert_eq!(rt;
        field.roll(size.saturating_sub(1)),
        refused(FieldCause::Roll)
    );
}

/// A field against its reference.
fn check_field<F: Field, R: Reference>(
    rt: &impl Abort,
    field: &F,
    reference: &R,
) -> Result<(), Fail> {
    assert_eq!(rt; field.width(), reference.width());
    assert_eq!(rt; field.c(), reference.c());
    assert_eq!(rt; field.size(), usize::from(reference.size()));
    check_products(rt, field, reference);
    check_inverses(rt, field, reference)?;
    check_rolls(rt, field, reference)?;
    check_refusals(rt, field, reference);
    Ok(())
}

#[test]
fn kinds(rt: HostRuntime) -> Result<(), Fail> {
    check_field(&rt, &Bit, &BIT)?;
    check_field(&rt, &Table::Gf8, &GF8)?;
    check_field(&rt, &Table::Gf16, &GF16)?;
    check_field(&rt, &Gf256, &GF256)
}

#[test]
fn pairs(rt: HostRuntime) -> Result<(), Fail> {
    check_field(&rt, &Pair::over(Bit), &Tower { base: BIT })?;
    check_field(
        &rt,
        &Pair::over(Pair::over(Bit)),
        &Tower {
            base: Tower { base: BIT },
        },
    )?;
    check_field(&rt, &Pair::over(Table::Gf8), &Tower { base: GF8 })?;
    check_field(&rt, &Pair::over(Table::Gf16), &Tower { base: GF16 })?;
    check_field(&rt, &Pair::over(Gf256), &GF256)
}

#[test]
fn doublings(rt: HostRuntime) {
    assert_eq!(rt; Pair::over(Table::Gf16).doubles(), Ok(()));
    assert_eq!(rt; Pair::over(Pair::over(Bit)).doubles(), Ok(()));
    assert_eq!(rt;
        Pair::over(Gf256).doubles(),
        Err(Fault::from(FieldCause::NoDoubling))
    );
    assert_eq!(rt;
        Pair::over(Pair::over(Table::Gf8)).doubles(),
        Err(Fault::from(FieldCause::NoDoubling))
    );
}

#[test]
fn worked_products(rt: HostRuntime) {
    assert_eq!(rt; Table::Gf8.product(6, 5), Ok(3));
    assert_eq!(rt; Table::Gf16.product(8, 8), Ok(12));
    assert_eq!(rt; Gf256.product(128, 2), Ok(29));
    assert_eq!(rt; Pair::over(Bit).product(2, 2), Ok(3));
    assert_eq!(rt; Pair::over(Table::Gf16).product(16, 16), Ok(24));
}

#[test]
fn fault_lines(rt: HostRuntime) -> Result<(), Fail> {
    let told = Fault::from(FieldCause::Operand).at(3);
    assert_eq!(rt; told.number(), 11);
    assert_eq!(rt; told.layer_name(), "field");
    assert_eq!(rt; told.place(), Some(3));
    for (fault, line) in [
        (told, "no\tfield\t11\t3"),
        (Fault::from(CodeCause::ArraySize), "no\tcode\t25\t-"),
        (Fault::from(SheetCause::SeveralWords), "no\tsheet\t42\t-"),
        (Fault::from(LineCause::NotANumber).at(2), "no\tline\t54\t2"),
    ] {
        assert_eq!(rt; format!(in rt.alloc(); "{fault}")?.as_str(), line);
    }
    Ok(())
}
