//! Tests of what keeps records in tables: how columns are spelled, and bodies under numbers. It has nothing but tests, so that
//! those crates are proved once. What is expected was worked out by hand from their definitions, or is printed by Python's `struct`.
#![tactic(auto)]

#[cfg(test)]
mod bodies;
#[cfg(test)]
mod checks;
#[cfg(test)]
mod columns;
#[cfg(test)]
mod tests;
