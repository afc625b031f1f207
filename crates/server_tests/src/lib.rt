//! Tests of the server over real loopback sockets, through its public items alone.
//! They stand apart from `server`, so that it is not proved a second time with them.
#![tactic(auto)]

#[cfg(test)]
mod buffers;
#[cfg(test)]
mod client;
#[cfg(test)]
mod conversations;
#[cfg(test)]
mod counters;
#[cfg(test)]
mod crowds;
#[cfg(test)]
mod faults;
#[cfg(test)]
mod files;
#[cfg(test)]
mod filling;
#[cfg(test)]
mod full;
#[cfg(test)]
mod holding;
#[cfg(test)]
mod lasting;
#[cfg(test)]
mod leaving;
#[cfg(test)]
mod limits;
#[cfg(test)]
mod overwriting;
#[cfg(test)]
mod pages;
#[cfg(test)]
mod pipelines;
#[cfg(test)]
mod reading;
#[cfg(test)]
mod refusals;
#[cfg(test)]
mod sharing;
#[cfg(test)]
mod sharing_file;
#[cfg(test)]
mod starting;
