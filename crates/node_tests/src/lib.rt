//! Tests of the maps that a monitor keeps, and of what a trim erases.
#![tactic(auto)]

#[cfg(test)]
mod maps;
#[cfg(test)]
mod trims;
