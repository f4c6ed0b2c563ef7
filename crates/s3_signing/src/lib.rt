//! Signatures of requests: verified and written, in a header or in a presigned query (AWS Signature Version 4).
#![tactic(auto)]

mod authorize;
mod chain;
mod compare;
mod cover;
mod kept_key;
mod key;
mod lines;
mod names;
mod presigned;
mod presigning;
mod region;
mod signature;
mod verdict;
mod word;

pub use authorize::sign_head;
pub use chain::ChunkChain;
pub use kept_key::KeptKey;
pub use key::signing_key;
pub use presigning::{
    presigned_heads_are_verified, presigned_signature, says_presigned, signed_names,
};
pub use region::{REGION_MAX, Region};
pub use verdict::{Verified, verify_head};
pub use word::Word;
