//! Tests of the parts of a store, through their public items alone: pages and records (`records`), epochs (`epoch`), devices
//! (`device`), the log of one stripe (`hybrid`), marks (`watch`), and stripes taken and given back (`gates`). They stand apart from
//! these, so that none of them is proved a second time with its tests.
//!
//! `visits` is a caller of the gates over parts of which neither the premise is known under which they read right nor what lies on
//! their pages; the tests of `passes` have parts with no key.
#![tactic(auto)]

#[cfg(test)]
mod exchanged;
#[cfg(test)]
mod far;
#[cfg(test)]
mod faulty;
#[cfg(test)]
mod file;
#[cfg(test)]
mod full;
#[cfg(test)]
mod logs;
#[cfg(test)]
mod marks;
#[cfg(test)]
mod memory;
#[cfg(test)]
mod pages;
#[cfg(test)]
mod passes;
#[cfg(test)]
mod paths;
#[cfg(test)]
mod pieces;
#[cfg(test)]
mod stays;
pub mod visits;
