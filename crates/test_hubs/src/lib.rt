//! Tests of a hub: what the desks of workers tell, all at the same time, and what the hub keeps of it.
#![tactic(auto)]

#[cfg(test)]
mod agreeing;
#[cfg(test)]
mod checks;
#[cfg(test)]
mod gates;
#[cfg(test)]
mod hub_tests;
#[cfg(test)]
mod hubs;
#[cfg(test)]
mod kept_desks;
#[cfg(test)]
mod line_tests;
#[cfg(test)]
mod load_tests;
#[cfg(test)]
mod plan_texts;
#[cfg(test)]
mod runs;
#[cfg(test)]
mod telling_desks;
#[cfg(test)]
mod telling_tests;
#[cfg(test)]
mod watched_lines;
