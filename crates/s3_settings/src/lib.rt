//! What a program is started with: the keys file, and the settings that it and the options make. Where it
//! fails, one line says why. It works over any files and devices.
#![tactic(auto)]

mod devices;
mod fault;
mod files;
mod folder;
mod keys;
mod mode;
mod options;
mod records_kind;
mod server;
mod settings;
mod writers;

pub use devices::{read_piece, write_output};
pub use fault::Fault;
pub use files::{Files, read_file};
pub use keys::read_keys;
pub use mode::ReplayMode;
pub use options::{Options, ReplayOptions, ServeOptions, SignOptions};
pub use records_kind::RecordsKind;
pub use server::{ServeMode, server_settings};
pub use settings::{Setup, configure, option_moment, option_number};
pub use writers::write_flushed;
