//! The fields that multiply by tables of logarithms and powers.
ghost use Rattle.std.specs.Prelude.{◌≡◌, ◌≢◌, ◌<◌};
ghost use Rattle.fields.specs.Answers.{inverse};
ghost use Rattle.fields.specs.Meaning.{size};
ghost use Rattle.binary_fields.specs.Tables.{table_meaning, IsLogTables};
ghost use Rattle.binary_fields.specs.Laws.{table_laws};

use faults::Fault;
use fields::Field;

/// A field by the number of its elements.
#[derive(Clone, Copy)]
pub enum Table {
    /// Modulo x³ + x + 1.
    Gf8,
    /// Modulo x⁴ + x + 1.
    Gf16,
}

/// The numbers that the two fields differ in.
#[derive(Clone, Copy)]
struct Numbers {
    width: u8,
    c: u16,
}

/// The tables of a field.
#[derive(Clone, Copy)]
struct Tables {
    /// Of each element but 0 the power of 2 that it is.
    logs: &'static [u8],
    /// The powers of 2 for two full turns, so that the sum of two logarithms is an index.
    powers: &'static [u16],
}

/// The logarithms of GF(8); that of 0 is never read.
const LOGS8: [u8; 8] = [0, 0, 1, 3, 2, 6, 4, 5];

/// The powers of 2 in GF(8), twice over.
const POWERS8: [u16; 14] = [1, 2, 4, 3, 6, 7, 5, 1, 2, 4, 3, 6, 7, 5];

/// The logarithms of GF(16); that of 0 is never read.
const LOGS16: [u8; 16] = [0, 0, 1, 4, 2, 8, 5, 10, 3, 14, 9, 7, 6, 13, 11, 12];

/// The powers of 2 in GF(16), twice over.
const POWERS16: [u16; 30] = [
    1, 2, 4, 8, 3, 6, 12, 11, 5, 10, 7, 14, 15, 13, 9, 1, 2, 4, 8, 3, 6, 12, 11, 5, 10, 7, 14, 15,
    13, 9,
];

impl Table {
    /// The numbers of the field.
    fn numbers(self) -> Numbers
        ensures width { result.width ≡ (table_meaning self).width }
        ensures c { result.c ≡ (table_meaning self).c }
    {
        match self {
            Table::Gf8 => Numbers { width: 3, c: 1 },
            Table::Gf16 => Numbers { width: 4, c: 8 },
        }
    }

    /// The tables of the field.
    fn tables(self) -> Tables
        ensures { IsLogTables (table_meaning self) result.logs.now result.powers.now }
    {
        match self {
            Table::Gf8 => Tables {
                logs: &LOGS8,
                powers: &POWERS8,
            },
            Table::Gf16 => Tables {
                logs: &LOGS16,
                powers: &POWERS16,
            },
        }
    }

    /// The power at the sum of two logarithms.
    #[tactic(auto, using(crate::proofs::LogTables::sum_of_logs))]
    fn log_product(self, x: u16, y: u16) -> u16
        requires left { x < size (table_meaning self) }
        requires right { y < size (table_meaning self) }
        ensures { result ≡ (table_meaning self).product x y }
    {
        if x == 0 || y == 0 {
            return 0;
        }
        let Tables { logs, powers } = self.tables();
        powers[usize::from(logs[usize::from(x)]) + usize::from(logs[usize::from(y)])]
    }

    /// The power at what a logarithm lacks to a full turn.
    #[tactic(auto, using(crate::proofs::LogTables::inverse_of_log))]
    fn log_inverse(self, x: u16) -> u16
        requires element { x < size (table_meaning self) }
        requires nonzero { x ≢ 0 }
        ensures { result ≡ inverse (table_meaning self) x }
    {
        let Tables { logs, powers } = self.tables();
        powers[logs.len() - 1 - usize::from(logs[usize::from(x)])]
    }
}

impl Field for Table {
    ghost meaning = { table_meaning };

    ghost lawful = { λ f. table_laws f };

    fn width(&self) -> u8 {
        self.numbers().width
    }

    fn c(&self) -> u16 {
        self.numbers().c
    }

    fn product(&self, x: u16, y: u16) -> Result<u16, Fault> {
        let (x, y) = (self.element(x)?, self.element(y)?);
        Ok(self.log_product(x, y))
    }

    fn inverse(&self, x: u16) -> Result<u16, Fault> {
        let x = self.nonzero(x)?;
        Ok(self.log_inverse(x))
    }

    fn roll(&self, i: u16) -> Result<u16, Fault> {
        let i = usize::from(self.roll_index(i)?);
        Ok(self.tables().powers[i])
    }
}
