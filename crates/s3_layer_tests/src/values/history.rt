//! Histories: each public call once, and how small they are.
use s3_history::{AsItself, Prefix, Recorder};
use std::mem::size_of;

// Tells three histories as they grow, and what is known of them. False where none can be made.
fn is_told() -> bool {
    let Some(mut recorder) = Recorder::new() else {
        return false;
    };
    let mut known = recorder.prefix();
    recorder.record::<u64, AsItself>(&5);
    let later = recorder.prefix();
    known.meet(&later);
    let mut copy = known.again();
    copy.learn(&later);
    recorder.check(&copy);
    known.learn(&copy);
    true
}

/// Whether histories are told, and take no room.
pub(crate) fn hold() -> bool {
    is_told() && size_of::<Recorder<[u64; 64]>>() == 8 && size_of::<Prefix<[u64; 64]>>() == 0
}
