//! Tests of what a request goes through beside its signature: heads, targets, canonical texts, routing, the store and its
//! printed replies.

mod asked;
mod canonical;
mod commands;
mod entries;
mod heads;
mod operations;
mod plans;
mod replies;
mod routing;
mod search;
mod store;
mod targets;
mod texts;

use crate::checks::{check, check_none};

#[test]
fn requests(rt: HostRuntime) {
    let alloc = rt.alloc();
    check(&rt, search::hold(alloc), "heads in pieces");
    let told = [
        heads::first_other(alloc),
        targets::first_other(alloc),
        canonical::first_other(alloc),
        routing::first_other(alloc),
        commands::first_other(alloc),
        store::first_of_all(alloc),
        replies::first_of_all(alloc),
    ];
    for other in told {
        check_none(&rt, other);
    }
}
