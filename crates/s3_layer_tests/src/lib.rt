//! Tests of the layers below connections: values, what a request goes through, and signatures with the bodies that they cover. It
//! has nothing but tests, so that those crates are proved once; and it is one crate, since each crate of tests pays anew for loading
//! and linking what it stands on.
#![tactic(auto)]

#[cfg(test)]
mod checks;
#[cfg(test)]
mod requests;
#[cfg(test)]
mod signing;
#[cfg(test)]
mod texts;
#[cfg(test)]
mod values;
