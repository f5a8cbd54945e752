//! Tests of bytes that other programs encoded or spoiled, of stores and files whose disk fails, and of a tree that
//! stays balanced.
#![tactic(auto)]

#[cfg(test)]
mod broken;
#[cfg(test)]
mod contents;
#[cfg(test)]
mod cursor;
#[cfg(test)]
mod file_disk;
#[cfg(test)]
mod kv;
#[cfg(test)]
mod kv_map;
#[cfg(test)]
mod log_map;
#[cfg(test)]
mod rows;
#[cfg(test)]
mod transaction;
#[cfg(test)]
mod tx;
#[cfg(test)]
mod types;
