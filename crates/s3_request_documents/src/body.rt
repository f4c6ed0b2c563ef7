//! The bodies of requests, as JSON.
ghost use Rattle.std.specs.Prelude.{◌≡◌, ◌<◌, ◌⊎◌, length, Some, None, IfOk, OnOk, IfErr};
ghost use Rattle.json.specs.Value.{value_view};
ghost use Rattle.serde_json.specs.Read.{of_json, read};
ghost use Rattle.s3_request_documents.specs.Data.{seen};
ghost use Rattle.s3_request_documents.specs.Json.{json_of};

use crate::numbers::is_in_range;
use json::{Error, Reader, Scratch, Value};
use s3_terms::Code;
use std::alloc::Global;
use std::str;

/// How deep arrays and objects may nest.
const DEPTH_MAX: usize = 127;

/// The JSON that a body is. Its texts are those of the body, or of the scratch where they are written with escapes.
pub(crate) fn parsed<'a>(
    alloc: Global,
    body: &'a [u8],
    scratch: &'a mut Scratch,
) -> Result<Value<'a>, Code>
    ensures value { IfOk result (λ value. json_of body.now ≡ Some (seen value)) }
    ensures refused { IfErr result (λ code. (code ≡ Code.InternalError) ⊎ ((code ≡ Code.MalformedBody) × (json_of body.now ≡ None))) }
    ensures some { OnOk result (0 < length body.now) }
    ensures memory { IfErr result (λ code. code ≡ Code.InternalError → 0 < length body.now) }
{
    let Ok(text) = str::from_utf8(body) else {
        return Err(Code::MalformedBody);
    };
    let value = tree(alloc, text, scratch)?;
    if !is_in_range(&value) {
        return Err(Code::MalformedBody);
    }
    Ok(value)
}

// The tree that a text is, whatever its numbers are.
fn tree<'a>(alloc: Global, text: &'a str, scratch: &'a mut Scratch) -> Result<Value<'a>, Code>
    ensures value { IfOk result (λ value. read text.now ≡ of_json (value_view value)) }
    ensures refused { IfErr result (λ code. (code ≡ Code.InternalError) ⊎ ((code ≡ Code.MalformedBody) × (read text.now ≡ None))) }
    ensures memory { IfErr result (λ code. code ≡ Code.InternalError → 0 < length text.now) }
{
    let Ok(mut reader) = Reader::new(text, scratch) else {
        return Err(Code::InternalError);
    };
    let value = match Value::read(alloc, &mut reader, DEPTH_MAX) {
        Ok(value) => value,
        Err(Error::OutOfMemory) => return Err(Code::InternalError),
        Err(_) => return Err(Code::MalformedBody),
    };
    if reader.next().is_some() {
        return Err(Code::MalformedBody);
    }
    Ok(value)
}
