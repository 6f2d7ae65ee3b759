//! A session wants what its plan says after each reply; scripts, loads and command lines are read as
//! their texts say.
#![tactic(auto)]

#[cfg(test)]
mod books;
#[cfg(test)]
mod loads;
#[cfg(test)]
mod modes;
#[cfg(test)]
mod plays;
#[cfg(test)]
mod scripts;
#[cfg(test)]
mod sessions;
#[cfg(test)]
mod texts;
#[cfg(test)]
mod words;
