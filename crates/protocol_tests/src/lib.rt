//! Tests of the crates that know requests, replies and sessions and no store, through their public items alone: `words`,
//! `resp_read`, `resp_write`, `streams`, `session` and `strings`. They stand apart from these, so that none of them is proved a
//! second time with its tests.
#![tactic(auto)]

#[cfg(test)]
mod commands;
#[cfg(test)]
mod encoder;
#[cfg(test)]
mod reader;
#[cfg(test)]
mod requests;
#[cfg(test)]
mod sessions;
#[cfg(test)]
mod streaming;
