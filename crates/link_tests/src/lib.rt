//! Tests of links between ranks: what comes over a link is what its script says, whatever the order of the threads. The crate has no
//! other items.
#![tactic(auto)]

#[cfg(test)]
mod answers;
#[cfg(test)]
mod exchange;
#[cfg(test)]
mod numbered;
#[cfg(test)]
mod polling;
#[cfg(test)]
mod table;
#[cfg(test)]
mod tests;
