//! Tests of what goes in and out, against what other programs read and print: schedules, messages, scores and links.
#![tactic(auto)]

#[cfg(test)]
mod digits;
#[cfg(test)]
mod frag;
#[cfg(test)]
mod made;
#[cfg(test)]
mod rules;
#[cfg(test)]
mod schedule;
#[cfg(test)]
mod wire;
