//! Tests of the tables of a store, in memory and over disks in memory: changes of each kind, lists that are refused, and each call
//! that reads. They stand apart from other tests, since whatever names `sqlite` is dear to load.
#![tactic(auto)]

#[cfg(test)]
mod asking;
#[cfg(test)]
mod checks;
#[cfg(test)]
mod giving;
#[cfg(test)]
mod running;
#[cfg(test)]
mod scenario;
#[cfg(test)]
mod spelling;
