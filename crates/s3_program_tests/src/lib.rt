//! Tests of the program: of its command line and what it does over files and devices, and of the server. There is nothing else
//! here.
#![tactic(auto)]

#[cfg(test)]
mod checks;
#[cfg(test)]
mod keepers;
#[cfg(test)]
mod program;
#[cfg(test)]
mod server;
