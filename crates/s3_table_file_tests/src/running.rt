//! Tables through all their steps, in memory and over disks in memory.

use crate::asking::{Question, are_answered};
use crate::checks::check_none;
use crate::giving::{Given, are_made};
use crate::scenario::{ADDED, AFTER, BEFORE, DROPPED, REFUSED};
use s3_memory_database::open_in_memory;
use s3_stored_rows::StoreNumbers;
use s3_tables::TableFile;
use sqlite::{Alter, Connection};
use std::alloc::Global;

// Whether these changes are made or refused, as it is told, and the questions are answered so afterwards.
fn is_step<S: Alter>(
    alloc: Global,
    file: &mut TableFile<S>,
    changes: &[Given],
    made: bool,
    questions: &[Question],
) -> bool {
    are_made(alloc, file, changes) == made && file.is_live() && are_answered(alloc, file, questions)
}

// Why a list is refused that isn't, or that leaves anything changed, if there is one.
fn other_refused<S: Alter>(alloc: Global, file: &mut TableFile<S>) -> Option<&'static str> {
    for (reason, changes) in &REFUSED {
        if !is_step(alloc, file, *changes, false, &BEFORE) {
            return Some(*reason);
        }
    }
    None
}

// What goes otherwise, if anything does.
fn other_in<S: Alter>(alloc: Global, file: &mut TableFile<S>) -> Option<&'static str> {
    if !is_step(alloc, file, &ADDED, true, &BEFORE) {
        return Some("rows that are added");
    }
    let refused = other_refused(alloc, file);
    if refused.is_some() {
        return refused;
    }
    if !is_step(alloc, file, &DROPPED, true, &AFTER) {
        return Some("rows that go");
    }
    None
}

// The same for tables that are made here.
fn other_over<S: Alter + Drop>(alloc: Global, conn: Connection<S>) -> Option<&'static str> {
    let store = StoreNumbers {
        row: 1,
        form: 1,
        number: 40,
    };
    match TableFile::make(conn, &store) {
        Ok(mut file) => other_in(alloc, &mut file),
        Err(_) => Some("tables that are made"),
    }
}

fn other_in_memory(alloc: Global) -> Option<&'static str> {
    match Connection::open_in_memory(alloc) {
        Ok(conn) => other_over(alloc, conn),
        Err(_) => Some("a database in memory"),
    }
}

fn other_over_disks(alloc: Global) -> Option<&'static str> {
    match open_in_memory(alloc) {
        Ok(conn) => other_over(alloc, conn),
        Err(_) => Some("a database over disks"),
    }
}

#[test]
fn tables_in_memory(rt: HostRuntime) {
    check_none(&rt, other_in_memory(rt.alloc()));
}

#[test]
fn tables_over_disks(rt: HostRuntime) {
    check_none(&rt, other_over_disks(rt.alloc()));
}
