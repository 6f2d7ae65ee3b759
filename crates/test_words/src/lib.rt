//! Tests of the word and its passes.
#![tactic(auto)]

#[cfg(test)]
mod word_tests;
