//! What a read asks its reply to say of the object, in the place of what is kept with it.
ghost use Rattle.std.specs.Prelude.{◌≡◌, ◌≢◌, ◌≤◌, ◌+◌, ◌++◌, [], None, length, option_to_list, IfOk, OnErr};
ghost use Rattle.s3_requests.specs.Memory.{FollowsWhere, OverridesTake};
ghost use Rattle.s3_requests.specs.Overrides as rules;

use s3_http_heads::Target;
use s3_machine::Overrides;
use s3_terms::{Code, Dialect};
use s3_versions::MetadataEntry;
use std::alloc::{AllocError, Global};

// What the reply is to say: `InvalidArgument` where a value has a control byte, or where they are too long.
pub(crate) fn overrides_asked(
    alloc: Global,
    dialect: Dialect,
    target: &Target,
) -> Result<Overrides, Code>
    ensures { FollowsWhere (OverridesTake dialect target.now) result (rules.overrides_asked dialect target.now) }
{
    match dialect {
        Dialect::Json => Ok(Overrides::none(alloc)),
        Dialect::S3 => match overrides_sent(alloc, target) {
            Ok(entries) => Overrides::new(entries),
            Err(AllocError) => Err(Code::InternalError),
        },
    }
}

// All lines that are set, in the order of the parameters.
fn overrides_sent(alloc: Global, target: &Target) -> Result<Vec<MetadataEntry>, AllocError>
    ensures value { IfOk result (λ entries. entries.items ≡ rules.overrides_sent target.now) }
    ensures count { IfOk result (λ entries. length entries.items ≤ 6) }
    ensures memory { OnErr result (rules.overrides_sent target.now ≢ []) }
{
    let mut entries = Vec::new(alloc);
    push_override(
        alloc,
        target,
        b"response-cache-control",
        b"cache-control",
        &mut entries,
    )?;
    push_override(
        alloc,
        target,
        b"response-content-disposition",
        b"content-disposition",
        &mut entries,
    )?;
    push_override(
        alloc,
        target,
        b"response-content-encoding",
        b"content-encoding",
        &mut entries,
    )?;
    push_override(
        alloc,
        target,
        b"response-content-language",
        b"content-language",
        &mut entries,
    )?;
    push_override(
        alloc,
        target,
        b"response-content-type",
        b"content-type",
        &mut entries,
    )?;
    push_override(alloc, target, b"response-expires", b"expires", &mut entries)?;
    Ok(entries)
}

// Appends the line of this name that the parameter sets, if it is sent.
fn push_override(
    alloc: Global,
    target: &Target,
    parameter: &[u8],
    name: &[u8],
    entries: &mut Vec<MetadataEntry>,
) -> Result<(), AllocError>
    ensures value { IfOk result (λ _. entries.new.items
        ≡ entries.old.items ++ option_to_list (rules.override_in target.now (parameter.now, name.now))) }
    ensures count { IfOk result (λ _. length entries.new.items ≤ length entries.old.items + 1) }
    ensures memory { OnErr result (rules.override_in target.now (parameter.now, name.now) ≢ None) }
{
    match target.first(parameter) {
        Some(value) if !value.is_empty() => {
            let name = Vec::from_slice(alloc, name)?;
            let value = Vec::from_slice(alloc, value)?;
            entries.push(MetadataEntry::new(name, value))?;
        }
        _ => {}
    }
    Ok(())
}
