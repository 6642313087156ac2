//! What it means that a word agrees with the symbols that are held, and the algebra of working lost symbols back.
#![tactic(auto)]
