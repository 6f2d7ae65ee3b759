//! Commands that come over a connection, in whatever pieces, are answered in their order, and each line
//! of a door is served.
#![tactic(auto)]

#[cfg(test)]
mod commands;
#[cfg(test)]
mod doors;
#[cfg(test)]
mod failing_calls;
#[cfg(test)]
mod lines;
#[cfg(test)]
mod long_replies;
#[cfg(test)]
mod outside;
#[cfg(test)]
mod plains;
#[cfg(test)]
mod talks;
#[cfg(test)]
mod test_desk;
#[cfg(test)]
mod verbs;
