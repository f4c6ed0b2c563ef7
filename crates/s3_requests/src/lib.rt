//! What a verified message asks for: routing by the table of S3's operations, their arguments, and the command
//! with the data that came.
#![tactic(auto)]

mod addresses;
mod arguments;
mod checksum_mode;
mod commands;
mod copies;
mod copy_source;
mod description;
mod kept_sum;
mod laws;
mod line_names;
mod list_arguments;
mod operations;
mod overrides;
mod protection;
mod read_conditions;
mod routing;
mod storage_class;
mod unserved;
mod upload_arguments;
mod write_condition;

pub use checksum_mode::asks_for_checksums;
pub use commands::command;
pub use laws::{plans_are_unbroken, ready_plans_bring_nothing, tokens_are_read_back};
pub use operations::Operation;
pub use routing::{Plan, route};
pub use s3_machine::{
    BucketCommand, Command, Description, KeyCommand, ObjectPut, ObjectRead, UploadCommand,
    WriteCondition,
};
