//! The bit field, the table fields and the shift field.
#![tactic(auto)]

pub mod bit;
pub mod shift;
pub mod table;

pub use bit::Bit;
pub use shift::Gf256;
pub use table::Table;
