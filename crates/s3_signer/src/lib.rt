//! Whole signed requests, as the bytes that a client sends, and presigned targets (RFC 9112; AWS Signature Version 4).
#![tactic(auto)]

mod asked;
mod chunk_size;
mod chunked;
mod head_text;
mod line;
mod lines;
mod message;
mod presigned;
mod presigning;
mod ready;
mod request;
mod signed;
mod telling;
mod unsigned;

pub use chunk_size::ChunkSize;
pub use chunked::chunked_request;
pub use presigned::{presigned_request, presigned_target};
pub use request::signed_request;
pub use unsigned::Unsigned;
