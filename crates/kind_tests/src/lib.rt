//! Every kind of field and of code against a second computation that shares no code with it.
#![tactic(auto)]

#[cfg(test)]
mod code_tests;
#[cfg(test)]
mod field_tests;
#[cfg(test)]
mod reference;
