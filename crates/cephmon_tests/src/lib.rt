//! Tests of the top call, as its users see it: over disks, links, clocks and streams in memory. Out of memory is the one status that no contract
//! excludes, so a `run` that always returned it would be proved. These tests exclude that: each names the status with which a command ends, and it is
//! always another one.
#![tactic(auto)]

#[cfg(test)]
mod clients;
#[cfg(test)]
mod imports;
#[cfg(test)]
mod leaders;
#[cfg(test)]
mod nodes;
#[cfg(test)]
mod rig;
#[cfg(test)]
mod running;
#[cfg(test)]
mod schedules;
#[cfg(test)]
mod statuses;
#[cfg(test)]
mod stores;
