//! Tests of the plans of the roles, of what no run of a quorum reaches. The cases of examples/ show the other rules.
#![tactic(auto)]

#[cfg(test)]
mod client;
#[cfg(test)]
mod comes;
#[cfg(test)]
mod given;
#[cfg(test)]
mod leader;
#[cfg(test)]
mod peon;
#[cfg(test)]
mod probe;
#[cfg(test)]
mod provider;
#[cfg(test)]
mod requester;
#[cfg(test)]
mod shown;
#[cfg(test)]
mod site;
