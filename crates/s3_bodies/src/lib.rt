//! The bytes of objects: bodies in shared blocks, how they grow, and the payloads of messages that have been read and found
//! right.
#![tactic(auto)]

mod block;
mod blocks;
mod body;
mod body_builder;
mod own;
mod part_of_runs;
mod payload;
mod payload_builder;
mod piece;
mod row;
mod runs;
mod shared;
mod sink;

pub use block::BLOCK_SIZE;
pub use body::Body;
pub use body_builder::BodyBuilder;
pub use payload::Payload;
pub use payload_builder::PayloadBuilder;
pub use piece::Piece;
pub use sink::Sink;
