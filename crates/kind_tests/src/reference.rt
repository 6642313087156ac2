//! Products worked out from the definitions, with no table and no short cut.

/// A field by its width, its element c and its product; operands are elements.
pub trait Reference {
    /// How many bits an element has.
    fn width(&self) -> u8;

    /// The element c.
    fn c(&self) -> u16;

    /// The product of two elements.
    fn product(&self, x: u16, y: u16) -> u16;

    /// The element of number `i`, by the product alone.
    fn roll(&self, i: u16) -> u16;

    /// How many elements there are.
    fn size(&self) -> u16 {
        1u16.wrapping_shl(u32::from(self.width()))
    }

    /// A power of `x`.
    fn power(&self, x: u16, exponent: usize) -> u16 {
        (0..exponent).fold(1, |power, _| self.product(power, x))
    }
}

/// Polynomials with bits as coefficients, modulo one of them.
#[derive(Clone, Copy)]
pub struct Modular {
    pub width: u8,
    pub modulus: u32,
    pub c: u16,
}

/// One bit.
pub const BIT: Modular = Modular {
    width: 1,
    modulus: 0b11,
    c: 1,
};

/// Modulo x³ + x + 1.
pub const GF8: Modular = Modular {
    width: 3,
    modulus: 0b1011,
    c: 1,
};

/// Modulo x⁴ + x + 1.
pub const GF16: Modular = Modular {
    width: 4,
    modulus: 0b10011,
    c: 8,
};

/// Modulo x⁸ + x⁴ + x³ + x² + 1.
pub const GF256: Modular = Modular {
    width: 8,
    modulus: 0b100011101,
    c: 32,
};

/// The sum of `x` times each term of `y`.
fn carryless(x: u16, y: u16) -> u32 {
    (0..16u32)
        .filter(|i| y.wrapping_shr(*i) & 1 == 1)
        .fold(0, |sum, i| sum ^ u32::from(x).wrapping_shl(i))
}

/// Long division from the highest term on; what is left has fewer than `width` terms.
fn remainder(width: u8, modulus: u32, polynomial: u32) -> u16 {
    let mut rest = polynomial;
    for shift in (0..16u32).rev() {
        if rest.wrapping_shr(u32::from(width).wrapping_add(shift)) & 1 == 1 {
            rest ^= modulus.wrapping_shl(shift);
        }
    }
    (rest & 0xffff) as u16
}

impl Reference for Modular {
    fn width(&self) -> u8 {
        self.width
    }

    fn c(&self) -> u16 {
        self.c
    }

    fn product(&self, x: u16, y: u16) -> u16 {
        remainder(self.width, self.modulus, carryless(x, y))
    }

    fn roll(&self, i: u16) -> u16 {
        self.power(2, usize::from(i))
    }
}

/// Pairs (a, b) for a t + b, multiplied term by term, where t t = t + c.
#[derive(Clone, Copy)]
pub struct Tower<R> {
    pub base: R,
}

/// The two coefficients of a pair.
fn split(width: u8, x: u16) -> (u16, u16) {
    let high = x.wrapping_shr(u32::from(width));
    (high, x ^ high.wrapping_shl(u32::from(width)))
}

impl<R: Reference> Reference for Tower<R> {
    fn width(&self) -> u8 {
        self.base.width().wrapping_mul(2)
    }

    fn c(&self) -> u16 {
        self.base.c().wrapping_shl(u32::from(self.base.width()))
    }

    fn product(&self, x: u16, y: u16) -> u16 {
        let (a, b) = split(self.base.width(), x);
        let (d, e) = split(self.base.width(), y);
        let tt = self.base.product(a, d);
        let t = self.base.product(a, e) ^ self.base.product(b, d);
        let high = tt ^ t;
        let low = self.base.product(b, e) ^ self.base.product(self.base.c(), tt);
        high.wrapping_shl(u32::from(self.base.width())) ^ low
    }

    fn roll(&self, i: u16) -> u16 {
        i.wrapping_add(1)
    }
}
