//! Tests of reads of cold pages through the engine's public items alone: what other passes do while a call waits for its page, and
//! devices whose calls fail.
#![tactic(auto)]

#[cfg(test)]
mod cleaning;
#[cfg(test)]
mod cold;
#[cfg(test)]
mod failing;
#[cfg(test)]
mod leaving;
#[cfg(test)]
mod refused;
#[cfg(test)]
mod rounds;
#[cfg(test)]
mod scenes;
#[cfg(test)]
mod stores;
#[cfg(test)]
mod waiting;
