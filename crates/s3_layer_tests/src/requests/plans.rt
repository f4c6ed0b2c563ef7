//! The texts of plans: the operation, the bucket and the key, the version or the upload, and what a put, or the beginning of
//! an upload, says of its object.
use crate::requests::asked::Question;
use crate::requests::operations::{add_operation, operation};
use crate::requests::targets::add_line;
use crate::texts::{add, add_code};
use s3_http_heads::Head;
use s3_requests::{Command, Description, KeyCommand, Plan, route};
use s3_terms::{Code, Dialect};
use s3_test_servers::config_in;
use std::alloc::Global;
use std::mem::drop;

/// What the head asks of a server in `us-east-1` whose documents are of this dialect.
pub(crate) fn routed(alloc: Global, dialect: Dialect, head: &Head) -> Result<Plan, Code> {
    match config_in(alloc, dialect, b"us-east-1", 5, 100, &[]) {
        Some(config) => route(alloc, &config, head),
        None => Err(Code::InternalError),
    }
}

// Adds the media type, and the names of metadata with their values.
fn add_object(out: &mut Vec<u8>, said: &Description) {
    add(out, said.content_type.as_bytes());
    for entry in said.metadata.entries() {
        add_line(out, entry.name(), entry.value());
    }
}

// Adds what a put, or the beginning of an upload, says of the object.
fn add_description(out: &mut Vec<u8>, plan: &Plan) {
    match plan {
        Plan::Put { said, .. } => add_object(out, said),
        Plan::Ready(
            Command::Key {
                asked: KeyCommand::Begin(said),
                ..
            },
        ) => add_object(out, said),
        _ => add_code(out, Code::InvalidRequest),
    }
}

// Adds what a plan tells: what is asked for, the operation alone, or what is said of an object.
fn add_told_of(out: &mut Vec<u8>, plan: &Plan, question: &Question) {
    match question {
        Question::Route => add_operation(out, plan),
        Question::Operation => add(out, operation(plan).as_bytes()),
        _ => add_description(out, plan),
    }
}

/// Adds what the head asks for, or says of an object, where documents are of this dialect.
pub(crate) fn add_plan(
    alloc: Global,
    out: &mut Vec<u8>,
    dialect: Dialect,
    head: &Head,
    question: &Question,
) {
    match routed(alloc, dialect, head) {
        Ok(plan) => {
            add_told_of(out, &plan, question);
            drop(plan);
        }
        Err(code) => add_code(out, code),
    }
}
