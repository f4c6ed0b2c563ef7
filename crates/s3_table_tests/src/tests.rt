//! All that is tested here.
use crate::checks::check;
use crate::{bodies, columns};
use std::test::*;

#[test]
fn columns_and_bodies(rt: HostRuntime) {
    check(&rt, columns::hold(rt.alloc()), "columns");
    check(&rt, bodies::hold(rt.alloc()), "bodies under numbers");
}
