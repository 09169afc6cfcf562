//! Tests of what stands outermost: the host's files, when gathered bytes go to theirs, what is written where a read
//! error is foreseen, and a network that meets what the headline asks. They stand apart, so that no crate is proved
//! once more with its tests.
#![tactic(auto)]

#[cfg(test)]
mod halting_shelf;
#[cfg(test)]
mod host_shelf;
#[cfg(test)]
mod host_sink;
#[cfg(test)]
mod lines;
#[cfg(test)]
mod output;
#[cfg(test)]
mod stages;
#[cfg(test)]
mod two_shelves;
#[cfg(test)]
mod worked_network;
