//! Answers of a code and of its field where they cannot be refusals, and lists of them.
ghost use Rattle.std.specs.Prelude.{◌≡◌, ℕ, ◌<◌, ◌≤◌, ◌≢◌, bit_xor, length, slice_index};
ghost use Rattle.fields.specs.Meaning.{size};
ghost use Rattle.erasures.specs.Elimination.{times, dot, Elements};

use codes::Code;
use fields::Field;

/// The product of two elements.
pub(crate) fn product<C: Code>(code: &C, x: u16, y: u16) -> u16
    requires left { x < size (C.meaning code.now).field }
    requires right { y < size (C.meaning code.now).field }
    ensures value { result ≡ times (C.meaning code.now).field x y }
    ensures element { result < size (C.meaning code.now).field }
{
    code.field().product(x, y).unwrap()
}

/// The product of two elements, added to a third.
pub(crate) fn mul_add<C: Code>(code: &C, x: u16, y: u16, to: u16) -> u16
    requires left { x < size (C.meaning code.now).field }
    requires right { y < size (C.meaning code.now).field }
    requires to { to < size (C.meaning code.now).field }
    ensures value { result ≡ bit_xor to (times (C.meaning code.now).field x y) }
    ensures element { result < size (C.meaning code.now).field }
{
    to ^ product(code, x, y)
}

/// The inverse of an element other than 0.
pub(crate) fn inverse<C: Code>(code: &C, x: u16) -> u16
    requires element { x < size (C.meaning code.now).field }
    requires nonzero { x ≢ 0 }
    ensures value { times (C.meaning code.now).field result x ≡ 1 }
    ensures element { result < size (C.meaning code.now).field }
{
    code.field().inverse(x).unwrap()
}

/// What a check multiplies the symbol at a place by.
pub(crate) fn entry<C: Code>(code: &C, check: usize, place: usize) -> u16
    requires check { check < (C.meaning code.now).checks }
    requires place { place < (C.meaning code.now).places }
    ensures value { result ≡ (C.meaning code.now).entry check place }
    ensures element { result < size (C.meaning code.now).field }
{
    code.entry(check, place).unwrap()
}

/// What a function gives at the first `count` indices, and zeros behind them.
pub(crate) fn tabulate<const N: usize, F: Fn(usize) -> u16>(count: usize, at: F) -> [u16; N]
    requires room { count ≤ N }
    requires callable { (i : ℕ) → i < count → F.pre at i }
    ensures given { (i : ℕ) → i < count → F.post at i (slice_index result i) }
    ensures zeros { (i : ℕ) → count ≤ i → slice_index result i ≡ 0 }
{
    let mut values = [0; N];
    for (i, x) in values[..count].iter_mut().enumerate() {
        *x = at(i);
    }
    values
}

/// The sum of the products of elements and what a function gives at their indices.
pub(crate) fn dot_product<C: Code, F: Fn(usize) -> u16>(code: &C, left: F, right: &[u16]) -> u16
    requires callable { (j : ℕ) → j < length right.now → F.pre left j }
    requires left { (j x : ℕ) → j < length right.now → F.post left j x → x < size (C.meaning code.now).field }
    requires right { Elements (C.meaning code.now).field right.now }
    ensures element { result < size (C.meaning code.now).field }
    ensures value { (a : ℕ → ℕ) → ((j x : ℕ) → j < length right.now → F.post left j x → x ≡ a j) → result ≡ dot (times (C.meaning code.now).field) (length right.now) a (λ j. slice_index right.now j) }
{
    let mut total = 0;
    for (j, x) in right.iter().enumerate() {
        total = mul_add(code, left(j), *x, total);
    }
    total
}
