//! A body in memory, and its count.

use s3_bodies::Body;

/// A body, and how many rows name it beside the first.
#[derive(Drop)]
pub(crate) struct HeldBody {
    pub(crate) body: Body,
    pub(crate) more: u64,
}
