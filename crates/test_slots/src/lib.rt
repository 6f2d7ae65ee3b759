//! Tests of the slots of keys.
#![tactic(auto)]

#[cfg(test)]
mod slot_tests;
