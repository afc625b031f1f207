//! Tests of connections over streams in memory, through public items alone: streams that are cut, fail or lie, words at
//! their limits, refused memory, and devices that fail, are full, or lie in a file that is changed. They stand apart from
//! `connection`, whose own proof takes long.
#![tactic(auto)]

#[cfg(test)]
mod cold;
#[cfg(test)]
mod edges;
#[cfg(test)]
mod examples;
#[cfg(test)]
mod failing;
#[cfg(test)]
mod followed;
#[cfg(test)]
mod full;
#[cfg(test)]
mod gets;
#[cfg(test)]
mod hostile;
#[cfg(test)]
mod keys;
#[cfg(test)]
mod lengths;
#[cfg(test)]
mod many_keys;
#[cfg(test)]
mod msets;
#[cfg(test)]
mod one_cold;
#[cfg(test)]
mod pieces;
#[cfg(test)]
mod ready;
#[cfg(test)]
mod refused;
#[cfg(test)]
mod requests;
#[cfg(test)]
mod rows;
#[cfg(test)]
mod sizes;
#[cfg(test)]
mod talks;
#[cfg(test)]
mod transactions;
#[cfg(test)]
mod watching;
#[cfg(test)]
mod writers;
