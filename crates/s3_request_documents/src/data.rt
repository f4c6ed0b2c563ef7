//! A document that was read, as the value that it is: of several members of one name the last one counts.
ghost use Rattle.std.specs.Prelude.{◌≡◌, map as each, option_map};
ghost use Rattle.serde_json.specs.Find.{get, as_str, as_number, as_array};
ghost use Rattle.serde_json.specs.View.{number_view};
ghost use Rattle.s3_request_documents.specs.Completion.{elements};
ghost use Rattle.s3_request_documents.specs.Data.{seen};

use crate::numbers::number_of;
use json::Value;
use serde_json::Number;

/// The member of a name, if there is one.
pub(crate) fn get<'v, 'a>(value: &'v Value<'a>, name: &str) -> Option<&'v Value<'a>>
    ensures { option_map (λ found. seen found.now) result ≡ get name.now (seen value.now) }
{
    value.get(name)
}

/// The text that a value is, if it is one.
pub(crate) fn as_str<'a>(value: &Value<'a>) -> Option<&'a str>
    ensures { option_map (λ text. text.now) result ≡ as_str (seen value.now) }
{
    value.as_str()
}

/// The number that it is, if it is one.
pub(crate) fn as_number(value: &Value<'_>) -> Option<Number>
    ensures { option_map number_view result ≡ as_number (seen value.now) }
{
    match value.as_number() {
        Some(text) => number_of(text),
        None => None,
    }
}

/// The elements of the array that it is, if it is one.
pub(crate) fn as_array<'v, 'a>(value: &'v Value<'a>) -> Option<&'v [Value<'a>]>
    ensures { option_map (λ items. each seen items.now) result ≡ option_map elements (as_array (seen value.now)) }
{
    match value {
        Value::Array(items) => Some(items.as_slice()),
        _ => None,
    }
}
