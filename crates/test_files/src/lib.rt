//! The file of a cache: its text, and the file in memory. Tests alone.
#![tactic(auto)]

#[cfg(test)]
mod cache_texts;
#[cfg(test)]
mod memory_files;
