//! Tests of signatures, those that a server verifies and those that the signer writes, and of bodies: signed in chunks,
//! written and read in pieces, and in each of the three payload modes.

mod blocks;
mod bodies;
mod chunks;
mod heads;
mod presigned;
mod presigner;
mod server;
mod signer;
mod signing;

use crate::checks::check_none;

#[test]
fn signatures_and_bodies(rt: HostRuntime) {
    let alloc = rt.alloc();
    let told = [
        signing::first_other(alloc),
        presigned::first_other(alloc),
        signer::first_other(alloc),
        presigner::first_other(alloc),
        bodies::first_other(alloc),
        chunks::first_other(alloc),
    ];
    for other in told {
        check_none(&rt, other);
    }
}
