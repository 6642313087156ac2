//! Elimination over combinations of the checks: a row for each lost place for which there is one.
ghost use Rattle.std.specs.Prelude.{◌≡◌, ℕ, ◌<◌, ◌≤◌, Some, None, MatchOption, ◌≢◌, slice_index};
ghost use Rattle.fields.specs.Meaning.{FieldMeaning};
ghost use Rattle.erasures.specs.Agreement.{held};
ghost use Rattle.erasures.specs.Elimination.{times, dot, Elements, Eliminated, Contradicted};
ghost use Rattle.repair.specs.Rows.{syndrome_of, row_at, cell, sum_at, place_at, AllElements, UnitRow, Cleared, RowPivoted, Used, Filled};

use super::arithmetic::{entry, inverse, tabulate};
use super::cells::symbol;
use super::rows::Row;
use codes::Code;

/// The entries of the checks at a place.
fn entries_at<C: Code>(code: &C, count: usize, place: usize) -> [u16; 96]
    requires count { count ≡ (C.meaning code.now).checks }
    requires place { place < (C.meaning code.now).places }
    ensures elements { Elements (C.meaning code.now).field result }
    ensures value { (j : ℕ) → j < (C.meaning code.now).checks → slice_index result j ≡ (C.meaning code.now).entry j place }
{
    tabulate(count, |check| entry(code, check, place))
}

/// Writes the checks themselves, with what each sums to.
fn start<C: Code>(code: &C, rows: &mut [Row; 96], count: usize, syndrome: &[u16; 96])
    requires count { count ≡ (C.meaning code.now).checks }
    requires syndrome { Elements (C.meaning code.now).field syndrome.now }
    requires elements { AllElements (C.meaning code.now).field rows.old }
    ensures elements { AllElements (C.meaning code.now).field rows.new }
    ensures units { (i : ℕ) → i < (C.meaning code.now).checks → UnitRow i (slice_index syndrome.now i) (row_at rows.new i) }
{
    for (check, row) in rows[..count].iter_mut().enumerate() {
        *row = Row::unit(check, syndrome[check]);
    }
}

/// What each row makes of the column of a place.
fn column_of<C: Code>(code: &C, rows: &[Row; 96], count: usize, place: usize) -> [u16; 96]
    requires count { count ≡ (C.meaning code.now).checks }
    requires elements { AllElements (C.meaning code.now).field rows.now }
    requires place { place < (C.meaning code.now).places }
    ensures elements { Elements (C.meaning code.now).field result }
    ensures value { (i : ℕ) → i < (C.meaning code.now).checks → slice_index result i ≡ dot (times (C.meaning code.now).field) (C.meaning code.now).checks (cell rows.now i) (λ j. (C.meaning code.now).entry j place) }
{
    let entries = entries_at(code, count, place);
    let entries = &entries[..count];
    tabulate(count, |i| rows[i].times_column(code, entries))
}

/// The first row that is assigned to no place and is not 0 in a column.
fn unused_row(rows: &[Row; 96], count: usize, column: &[u16; 96]) -> Option<usize>
    requires { count ≤ 96 }
    ensures { MatchOption result ((i : ℕ) → i < count → place_at rows.now i ≡ None → slice_index column.now i ≡ 0) (λ i. (i < count) × (place_at rows.now i ≡ None) × (slice_index column.now i ≢ 0)) }
{
    rows[..count]
        .iter()
        .zip(column)
        .position(|(row, x)| row.place.is_none() && *x != 0)
}

/// Adds row `at`, times its number in `column`, to each other row.
fn clear<C: Code>(code: &C, rows: &mut [Row; 96], count: usize, at: usize, column: &[u16; 96])
    requires count { count ≡ (C.meaning code.now).checks }
    requires at { at < (C.meaning code.now).checks }
    requires elements { AllElements (C.meaning code.now).field rows.old }
    requires column { Elements (C.meaning code.now).field column.now }
    ensures elements { AllElements (C.meaning code.now).field rows.new }
    ensures cleared { Cleared (C.meaning code.now).field (C.meaning code.now).checks at (λ i. slice_index column.now i) rows.old rows.new }
{
    let pivot_row = rows[at];
    for (i, row) in rows[..count].iter_mut().enumerate() {
        if i != at {
            row.add(code, count, &pivot_row, column[i]);
        }
    }
}

/// Assigns row `at` to a place, and makes the place's column 1 there and 0 at each other row.
fn pivot<C: Code>(
    code: &C,
    rows: &mut [Row; 96],
    count: usize,
    at: usize,
    place: usize,
    column: &[u16; 96],
)
    requires count { count ≡ (C.meaning code.now).checks }
    requires at { at < (C.meaning code.now).checks }
    requires elements { AllElements (C.meaning code.now).field rows.old }
    requires column { Elements (C.meaning code.now).field column.now }
    requires nonzero { slice_index column.now at ≢ 0 }
    ensures elements { AllElements (C.meaning code.now).field rows.new }
    ensures pivoted { RowPivoted (C.meaning code.now).field (C.meaning code.now).checks at (λ i. slice_index column.now i) place rows.old rows.new }
{
    let by = inverse(code, column[at]);
    rows[at].assign(code, count, by, place);
    clear(code, rows, count, at, column);
}

/// Assigns a row to a lost place, and tells which, if one that is assigned to none yet sees the place.
fn use_row<C: Code>(code: &C, rows: &mut [Row; 96], count: usize, place: usize) -> Option<usize>
    requires count { count ≡ (C.meaning code.now).checks }
    requires place { place < (C.meaning code.now).places }
    requires elements { AllElements (C.meaning code.now).field rows.old }
    ensures elements { AllElements (C.meaning code.now).field rows.new }
    ensures used { Used (C.meaning code.now).field (C.meaning code.now).checks (λ j. (C.meaning code.now).entry j place) place rows.old rows.new result }
{
    let column = column_of(code, rows, count, place);
    let at = unused_row(rows, count, &column)?;
    pivot(code, rows, count, at, place, &column);
    Some(at)
}

/// The elimination over a code's checks: a row for each check.
#[derive(Drop)]
pub(crate) struct Elimination {
    rows: [Row; 96],
    /// One lost place that no row is assigned to, if there is any: the elimination does not determine its symbol.
    pub(crate) undetermined: Option<usize>,
}

impl Elimination {
    /// Rows of zeros, and no place gone through.
    pub(crate) fn new() -> Elimination
        ensures elements { (f : FieldMeaning) → AllElements f result.rows }
        ensures undetermined { result.undetermined ≡ None }
    {
        Elimination {
            rows: [Row::EMPTY; 96],
            undetermined: None,
        }
    }

    /// Goes through the places, and assigns a row to each lost one for which there is one.
    pub(crate) fn run<C: Code>(&mut self, code: &C, cells: &[Option<u16>], syndrome: &[u16; 96])
        requires rows { AllElements (C.meaning code.now).field self.old.rows }
        requires undetermined { self.old.undetermined ≡ None }
        requires elements { Elements (C.meaning code.now).field syndrome.now }
        requires syndrome { (j : ℕ) → j < (C.meaning code.now).checks → slice_index syndrome.now j ≡ syndrome_of (C.meaning code.now) (held (C.meaning code.now) cells.now) j }
        ensures eliminated { Eliminated (C.meaning code.now).field (C.meaning code.now).checks (λ p j. (C.meaning code.now).entry j p) (syndrome_of (C.meaning code.now) (held (C.meaning code.now) cells.now)) (held (C.meaning code.now) cells.now) (C.meaning code.now).places (cell self.new.rows) (sum_at self.new.rows) (place_at self.new.rows) self.new.undetermined }
        ensures elements { AllElements (C.meaning code.now).field self.new.rows }
    {
        let count = code.checks();
        start(code, &mut self.rows, count, syndrome);
        for place in 0..code.places() {
            if symbol(code, cells, place).is_none()
                && use_row(code, &mut self.rows, count, place).is_none()
            {
                self.undetermined = Some(place);
            }
        }
    }

    /// Whether a row that is assigned to no place has a sum other than 0.
    pub(crate) fn contradicted<C: Code>(&self, code: &C) -> bool
        ensures { Contradicted (C.meaning code.now).checks (sum_at self.now.rows) (place_at self.now.rows) result }
    {
        self.rows[..code.checks()]
            .iter()
            .any(|row| row.place.is_none() && row.sum != 0)
    }

    /// Writes the sum of each row at the place that the row is assigned to.
    pub(crate) fn fill<C: Code>(&self, code: &C, word: &mut [u16; 512])
        requires within { (i p : ℕ) → i < (C.meaning code.now).checks → place_at self.now.rows i ≡ Some p → p < 512 }
        requires once { (i j p : ℕ) → i < (C.meaning code.now).checks → j < (C.meaning code.now).checks → place_at self.now.rows i ≡ Some p → place_at self.now.rows j ≡ Some p → i ≡ j }
        ensures { Filled self.now.rows (C.meaning code.now).checks word.old word.new }
    {
        for row in &self.rows[..code.checks()] {
            if let Some(place) = row.place {
                word[place] = row.sum;
            }
        }
    }
}
