//! The lists of versions that puts and deletes leave, and which version a request reads.

use crate::checks::{Row, all_hold};
use crate::values::steps::{Act, Entry, Known, are, takes};
use s3_names::VersionId;
use s3_terms::Code;
use s3_versions::Versioning::{Enabled, Suspended, Unversioned};
use s3_versions::{Version, Versions, pick};
use std::alloc::Global;
use std::mem::drop;

/// An entry, and the versions that it leaves.
type Step = (Entry, &'static [Known]);

/// The number of the bytes that are read, or the refusal and whether it tells of a delete marker.
type Outcome = Result<u64, (Code, bool)>;

const NULL: Known = (b"null", false);

const MARKER: Known = (b"null", true);

const V1: Known = (b"v0000000000000001", false);

const V2: Known = (b"v0000000000000002", false);

const V1_MARKER: Known = (b"v0000000000000001", true);

/// Entries, and which versions requests read at their end.
struct Scenario {
    steps: &'static [Step],
    reads: &'static [(Option<VersionId>, Outcome)],
}

static SCENARIOS: [Scenario; 7] = [
    // No versions.
    Scenario {
        steps: &[],
        reads: &[
            (None, Err((Code::NoSuchKey, false))),
            (Some(VersionId::Null), Err((Code::NoSuchVersion, false))),
        ],
    },
    // A delete while versioning is suspended.
    Scenario {
        steps: &[
            ((1, Enabled, Act::Put), &[V1]),
            ((3, Suspended, Act::Put), &[NULL, V1]),
            ((4, Suspended, Act::Delete), &[MARKER, V1]),
        ],
        reads: &[
            (None, Err((Code::NoSuchKey, true))),
            (Some(VersionId::Null), Err((Code::MethodNotAllowed, true))),
            (Some(VersionId::Numbered(1)), Ok(1)),
            (
                Some(VersionId::Numbered(255)),
                Err((Code::NoSuchVersion, false)),
            ),
        ],
    },
    // Its delete marker is removed.
    Scenario {
        steps: &[
            ((1, Enabled, Act::Put), &[V1]),
            ((3, Suspended, Act::Put), &[NULL, V1]),
            ((4, Suspended, Act::Delete), &[MARKER, V1]),
            (
                (6, Suspended, Act::DropVersion(VersionId::Null, Some(4))),
                &[V1],
            ),
        ],
        reads: &[],
    },
    // A delete marker of no key.
    Scenario {
        steps: &[((1, Enabled, Act::Delete), &[V1_MARKER])],
        reads: &[],
    },
    // Delete markers and the version null.
    Scenario {
        steps: &[
            ((0, Unversioned, Act::Put), &[NULL]),
            ((2, Enabled, Act::Put), &[V2, NULL]),
            ((4, Suspended, Act::Delete), &[MARKER, V2]),
            ((5, Suspended, Act::Put), &[NULL, V2]),
        ],
        reads: &[],
    },
    // A bucket that was never versioned.
    Scenario {
        steps: &[
            ((0, Unversioned, Act::Put), &[NULL]),
            ((1, Unversioned, Act::Put), &[NULL]),
            ((2, Unversioned, Act::Delete), &[]),
            ((3, Unversioned, Act::Delete), &[]),
        ],
        reads: &[],
    },
    // One version is dropped.
    Scenario {
        steps: &[
            ((1, Enabled, Act::Put), &[V1]),
            ((2, Enabled, Act::Put), &[V2, V1]),
            (
                (3, Enabled, Act::DropVersion(VersionId::Numbered(3), None)),
                &[V2, V1],
            ),
            (
                (
                    4,
                    Enabled,
                    Act::DropVersion(VersionId::Numbered(1), Some(1)),
                ),
                &[V2],
            ),
            ((5, Enabled, Act::DropVersion(VersionId::Null, None)), &[V2]),
        ],
        reads: &[],
    },
];

fn read(versions: &[Version<u64>], asked: Option<VersionId>) -> Outcome {
    match pick(versions, asked) {
        Ok(picked) => Ok(picked.stored.body),
        Err(refusal) => Err((refusal.code, refusal.is_delete_marker)),
    }
}

// Whether, of these versions, each of these is asked for with this outcome.
fn reads(versions: &[Version<u64>], wanted: &[(Option<VersionId>, Outcome)]) -> bool {
    for (asked, outcome) in wanted {
        if read(versions, *asked) != *outcome {
            return false;
        }
    }
    true
}

// Whether an entry is made, and leaves these.
fn leaves(alloc: Global, versions: &mut Versions<u64>, step: &Step) -> bool {
    takes(alloc, versions, &step.0) && are(versions.as_slice(), step.1)
}

// Whether all of these steps leave what they say.
fn all_leave(alloc: Global, versions: &mut Versions<u64>, steps: &[Step]) -> bool {
    for step in steps {
        if !leaves(alloc, versions, step) {
            return false;
        }
    }
    true
}

// Whether its entries leave their versions, and these are read so at the end.
impl Row for Scenario {
    fn holds(&self, alloc: Global) -> bool {
        let mut versions = Versions::new(alloc);
        let all_leave = all_leave(alloc, &mut versions, self.steps);
        let is_read = reads(versions.as_slice(), self.reads);
        drop(versions);
        all_leave && is_read
    }
}

/// Whether each scenario goes as it says.
pub(crate) fn hold(alloc: Global) -> bool {
    all_hold(alloc, &SCENARIOS)
}
