//! Tests of the program: its command line, its faults, its devices, event lines, and signed requests whose texts
//! come from outside. They run it over files and devices of their own.

mod devices;
mod events;
mod faults;
mod presigning;
mod runs;
mod serving;
mod signing;
