//! Repair against a second decoder, which shares no code with it.
#![tactic(auto)]

#[cfg(test)]
mod decoder;
#[cfg(test)]
mod tests;
