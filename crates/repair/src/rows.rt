//! The rows of the elimination.
ghost use Rattle.std.specs.Prelude.{◌≡◌, ◌<◌, ◌≤◌, Some, length, slice_index};
ghost use Rattle.fields.specs.Meaning.{size};
ghost use Rattle.erasures.specs.Elimination.{times, dot, Elements};
ghost use Rattle.repair.specs.Rows.{RowElements, UnitRow, Scaled, Added};

use super::arithmetic::{dot_product, mul_add, product};
use codes::Code;

/// A combination of the checks.
#[derive(Clone, Copy)]
pub(crate) struct Row {
    /// What it multiplies each check by.
    pub(crate) combination: [u16; 96],
    /// The same combination of what the checks sum to.
    pub(crate) sum: u16,
    /// The place that the row is assigned to, if it is assigned to one.
    pub(crate) place: Option<usize>,
}

impl Row {
    /// A row of zeros, assigned to no place.
    pub(crate) const EMPTY: Row = Row {
        combination: [0; 96],
        sum: 0,
        place: None,
    };

    /// One check alone, assigned to no place.
    pub(crate) fn unit(check: usize, sum: u16) -> Row
        requires { check < 96 }
        ensures { UnitRow check sum result }
    {
        let mut combination = [0; 96];
        combination[check] = 1;
        Row {
            combination,
            sum,
            place: None,
        }
    }

    /// The row times a column.
    pub(crate) fn times_column<C: Code>(&self, code: &C, column: &[u16]) -> u16
        requires few { length column.now ≤ 96 }
        requires elements { RowElements (C.meaning code.now).field self.now }
        requires column { Elements (C.meaning code.now).field column.now }
        ensures element { result < size (C.meaning code.now).field }
        ensures value { result ≡ dot (times (C.meaning code.now).field) (length column.now) (λ j. slice_index self.now.combination j) (λ j. slice_index column.now j) }
    {
        dot_product(code, |j| self.combination[j], column)
    }

    /// Multiplies the row, of `count` checks, by `by`, and assigns it to a place.
    pub(crate) fn assign<C: Code>(&mut self, code: &C, count: usize, by: u16, place: usize)
        requires count { count ≡ (C.meaning code.now).checks }
        requires by { by < size (C.meaning code.now).field }
        requires elements { RowElements (C.meaning code.now).field self.old }
        ensures elements { RowElements (C.meaning code.now).field self.new }
        ensures scaled { Scaled (C.meaning code.now).field (C.meaning code.now).checks by self.old self.new }
        ensures place { self.new.place ≡ Some place }
    {
        for x in &mut self.combination[..count] {
            *x = product(code, by, *x);
        }
        self.sum = product(code, by, self.sum);
        self.place = Some(place);
    }

    /// Adds another row, times `by`, to the row, both of `count` checks.
    pub(crate) fn add<C: Code>(&mut self, code: &C, count: usize, other: &Row, by: u16)
        requires count { count ≡ (C.meaning code.now).checks }
        requires by { by < size (C.meaning code.now).field }
        requires other { RowElements (C.meaning code.now).field other.now }
        requires elements { RowElements (C.meaning code.now).field self.old }
        ensures elements { RowElements (C.meaning code.now).field self.new }
        ensures added { Added (C.meaning code.now).field (C.meaning code.now).checks by other.now self.old self.new }
    {
        for (j, x) in self.combination[..count].iter_mut().enumerate() {
            *x = mul_add(code, by, other.combination[j], *x);
        }
        self.sum = mul_add(code, by, other.sum, self.sum);
    }
}
