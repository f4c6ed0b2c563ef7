//! Tests of the crates at the bottom: texts, codes, names, calendar, conditions, settings, event lines, histories, HMAC, bodies and
//! payloads; what a connection has still to send; versions, records and documents.

mod bodies;
mod calendar;
mod codes;
mod conditions;
mod digits;
mod documents;
mod events;
mod history;
mod hmac;
mod ids;
mod names;
mod outbox;
mod payloads;
mod settings;
mod steps;
mod versioning;
mod versions;

use crate::checks::check;

#[test]
fn values(rt: HostRuntime) {
    let alloc = rt.alloc();
    let told = [
        ("bodies", bodies::hold(alloc)),
        ("stamps and moments", calendar::hold(alloc)),
        ("conversions", codes::hold(alloc)),
        ("dates, ranges and lists of tags", conditions::hold(alloc)),
        ("digits", digits::hold(alloc)),
        ("documents", documents::hold(alloc)),
        ("event lines", events::hold(alloc)),
        ("histories", history::hold()),
        ("MACs", hmac::hold(alloc)),
        ("ids and tags", ids::hold(alloc)),
        ("names and keys", names::hold(alloc)),
        ("what is still to be sent", outbox::hold(alloc)),
        ("payloads", payloads::hold(alloc)),
        ("settings", settings::hold(alloc)),
        ("versioning", versioning::hold(alloc)),
        ("versions", versions::hold(alloc)),
    ];
    for (name, holds) in told {
        check(&rt, holds, name);
    }
}
