//! Tests of connections: as machines, over devices, and of several that share a store. There is nothing else here.
#![tactic(auto)]

#[cfg(test)]
mod checks;
#[cfg(test)]
mod sessions;
#[cfg(test)]
mod workers;
