//! Tests what files can't hold of whole runs: loads on many threads, a server over TCP, servers
//! whose cache has a file, and what callers conclude.
#![tactic(auto)]

#[cfg(test)]
mod conclusions;
#[cfg(test)]
mod loads;
#[cfg(test)]
mod outsides;
#[cfg(test)]
mod servers;
#[cfg(test)]
mod two_loads;
#[cfg(test)]
mod warm_servers;
