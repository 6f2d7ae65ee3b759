//! Keys, rows and transactions, the tables and the shards, writers, the sweeper, the store, dumps and the audit: tests alone.
#![tactic(auto)]

#[cfg(test)]
mod audits;
#[cfg(test)]
mod copies;
#[cfg(test)]
mod count_shifts;
#[cfg(test)]
mod deltas;
#[cfg(test)]
mod desks;
#[cfg(test)]
mod draws;
#[cfg(test)]
mod dump_helps;
#[cfg(test)]
mod dump_texts;
#[cfg(test)]
mod dumps;
#[cfg(test)]
mod entries;
#[cfg(test)]
mod entry_lists;
#[cfg(test)]
mod grids;
#[cfg(test)]
mod keys;
#[cfg(test)]
mod lease_draws;
#[cfg(test)]
mod leases;
#[cfg(test)]
mod list_table;
#[cfg(test)]
mod number_shifts;
#[cfg(test)]
mod places;
#[cfg(test)]
mod raises;
#[cfg(test)]
mod refreshes;
#[cfg(test)]
mod renewals;
#[cfg(test)]
mod roll_draws;
#[cfg(test)]
mod rolls;
#[cfg(test)]
mod rows;
#[cfg(test)]
mod shards;
#[cfg(test)]
mod step_kinds;
#[cfg(test)]
mod stores;
#[cfg(test)]
mod sweepers;
#[cfg(test)]
mod txns;
#[cfg(test)]
#[cfg(test)]
mod writers;
