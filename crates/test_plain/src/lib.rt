//! Tests of plain commands, from the words of a line to the bytes of the reply.
#![tactic(auto)]

#[cfg(test)]
mod plain_tests;
