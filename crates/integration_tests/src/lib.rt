//! What the crates do that no built program comes to: sources of edges that count, fail and lie, keepers that fail and runs whose reads
//! run out, a list of commands run at once, a desk that a fault has shut, a row that no column holds, rows by any key, tables migrated by a
//! version, the first broken rule of loaded tables, decisions and checks by key and over lists, requests over readers that count, and tasks
//! over both kinds of store.
#![tactic(auto)]

#[cfg(test)]
mod checks;
#[cfg(test)]
mod commands;
#[cfg(test)]
mod decisions;
#[cfg(test)]
mod desks;
#[cfg(test)]
mod groups;
#[cfg(test)]
mod keepers;
#[cfg(test)]
mod migration;
#[cfg(test)]
mod programs;
#[cfg(test)]
mod reopening;
#[cfg(test)]
mod requests;
#[cfg(test)]
mod rules;
#[cfg(test)]
mod sources;
#[cfg(test)]
mod stocks;
#[cfg(test)]
mod stores;
#[cfg(test)]
mod streams;
