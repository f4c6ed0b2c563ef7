//! The canonical text of a request, which its signature is made of (AWS Signature Version 4, "Create
//! a canonical request"): the URI and the query of a target, the lines of the signed headers, and the
//! SHA-256 of the whole.
#![tactic(auto)]

mod canonical_target;
mod encoding;
mod parameter;
mod request;
mod text;

pub use canonical_target::{query, uri};
pub use encoding::{append_path, encode_query};
pub use request::{headers, request_hash};
