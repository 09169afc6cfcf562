//! Tests of the crates of coding and of the network: worked numbers, and those of other programs. They stand apart, so
//! that no crate is proved once more with its tests.
#![tactic(auto)]

#[cfg(test)]
mod anchor;
#[cfg(test)]
mod clock;
#[cfg(test)]
mod collect;
#[cfg(test)]
mod correctors;
#[cfg(test)]
mod encoder;
#[cfg(test)]
mod erasures;
#[cfg(test)]
mod expect;
#[cfg(test)]
mod frame;
#[cfg(test)]
mod galois;
#[cfg(test)]
mod least_paths;
#[cfg(test)]
mod ops;
#[cfg(test)]
mod packet;
#[cfg(test)]
mod pinned_paths;
#[cfg(test)]
mod polynomial;
#[cfg(test)]
mod refusals;
#[cfg(test)]
mod slice;
#[cfg(test)]
mod spread;
#[cfg(test)]
mod trellis;
#[cfg(test)]
mod whiten;
