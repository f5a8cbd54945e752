//! Tests of links: what they pass on, number, frame, answer and send again, over links and clocks in memory, and over
//! sockets and streams of the machine.
#![tactic(auto)]

#[cfg(test)]
mod again;
#[cfg(test)]
mod again_calls;
#[cfg(test)]
mod again_copies;
#[cfg(test)]
mod again_rows;
#[cfg(test)]
mod layers;
#[cfg(test)]
mod lives;
#[cfg(test)]
mod naming;
#[cfg(test)]
mod passing;
#[cfg(test)]
mod sockets;
#[cfg(test)]
mod streams;
#[cfg(test)]
mod timing;
#[cfg(test)]
mod watching;
