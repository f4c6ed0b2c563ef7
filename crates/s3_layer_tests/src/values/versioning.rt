//! The versioning that a body asks for.

use crate::checks::{Row, all_hold};
use s3_request_documents::read_versioning;
use s3_terms::{Code, Dialect};
use s3_versions::VersioningStatus::{self, Enabled, Suspended};
use std::alloc::Global;

/// A body, and the status that it asks for; `None` where it is malformed.
struct Case(&'static [u8], Option<VersioningStatus>);

static BODIES: [Case; 14] = [
    Case(b"{\"Status\":\"Enabled\"}", Some(Enabled)),
    Case(b" {\n\t\"Status\" : \"Suspended\" } ", Some(Suspended)),
    Case(
        b"{\"MfaDelete\":[1,{\"a\":null}],\"Status\":\"Enabled\"}",
        Some(Enabled),
    ),
    Case(
        b"{\"Status\":\"Enabled\",\"Status\":\"Suspended\"}",
        Some(Suspended),
    ),
    Case(b"{\"Status\":7,\"Status\":\"Enabled\"}", Some(Enabled)),
    Case(b"{\"\\u0053tatus\":\"Enabled\"}", Some(Enabled)),
    Case(b"{\"Status\":\"Off\"}", None),
    Case(b"{\"Status\":\"enabled\"}", None),
    Case(b"{\"Status\":true}", None),
    Case(b"{\"status\":\"Enabled\"}", None),
    Case(b"[\"Status\",\"Enabled\"]", None),
    Case(b"{\"Status\":\"Enabled\",\"Other\":\"\xff\"}", None),
    Case(b"{\"Status\":\"Enabled\"} x", None),
    Case(b"", None),
];

impl Row for Case {
    fn holds(&self, alloc: Global) -> bool {
        match read_versioning(alloc, Dialect::Json, self.0) {
            Ok(status) => Some(status) == self.1,
            Err(code) => code == Code::MalformedBody && self.1.is_none(),
        }
    }
}

/// Whether bodies ask for their versioning.
pub(crate) fn hold(alloc: Global) -> bool {
    all_hold(alloc, &BODIES)
}
