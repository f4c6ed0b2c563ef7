//! Which version a request reads.
ghost use Rattle.std.specs.Prelude.{◌≡◌, Ok, Err, Some, None, IfOk, IfErr, find};
ghost use Rattle.s3_versions.specs.declared.version.Version.{Version};
ghost use Rattle.std.specs.Option.{option_copied};

use crate::{Data, Version};
use s3_calendar::Moment;
use s3_names::{Tag, VersionId};
use s3_terms::Code;

/// Why no version is read.
#[derive(Clone, Copy)]
pub struct Refusal {
    pub code: Code,
    /// Whether what was asked for is a delete marker.
    pub is_delete_marker: bool,
}

/// What is known of a version beside what its put sent: when it was made, and the tag and the size of its bytes.
#[derive(Drop)]
pub struct Facts {
    pub moment: Moment,
    pub tag: Tag,
    pub size: u64,
}

/// The version that a request reads.
#[derive(Clone, Copy)]
pub struct Picked<'a, B> {
    pub version: &'a Version<B>,
    /// What it stores: it is no delete marker.
    pub stored: &'a Data<B>,
}

ghost use Rattle.s3_versions.specs.Rules.{current as current_of, is_under, asked_for, judged as rule, pick as pick_rule, facts_read, stored};

/// The current version, which is the newest. `versions` are those of one key, newest first.
pub fn current<B>(versions: &[Version<B>]) -> Option<&Version<B>>
    ensures { option_copied result ≡ current_of versions.now }
{
    versions.first()
}

/// The version under this id, found at the cost of the list's length.
pub fn version_under<B>(versions: &[Version<B>], id: VersionId) -> Option<&Version<B>>
    ensures { option_copied result ≡ find (is_under id) versions.now }
{
    versions.iter().find(|version| version.is_under(id))
}

/// Judges what a request reads: `found` is the version under the id that it names, or the current one
/// where it names none. Refused with `NoSuchKey` or `NoSuchVersion` where there is none, and with
/// `NoSuchKey` or `MethodNotAllowed` where it is a delete marker.
pub fn judge<B>(
    asked: Option<VersionId>,
    found: Option<&Version<B>>,
) -> Result<Picked<'_, B>, Refusal>
    ensures value { IfOk result (λ picked.
        rule asked (option_copied found.entry) ≡ Ok (picked.version.now, picked.stored.now)) }
    ensures refused { IfErr result (λ refusal. rule asked (option_copied found.entry) ≡ Err refusal) }
{
    match found {
        None => Err(absent::<B>(asked)),
        Some(version) => match version.stored() {
            None => Err(marked::<B>(asked)),
            Some(stored) => Ok(Picked { version, stored }),
        },
    }
}

/// What is known of the version that a request reads, or the refusal, by the rule of `judge`. Takes no memory.
pub fn read_facts<B>(asked: Option<VersionId>, found: Option<&Version<B>>) -> Result<Facts, Refusal>
    ensures { result ≡ facts_read (rule asked (option_copied found.entry)) }
{
    match judge(asked, found) {
        Ok(picked) => Ok(Facts {
            moment: picked.version.moment,
            tag: picked.stored.tag.copy(),
            size: picked.stored.size,
        }),
        Err(refusal) => Err(refusal),
    }
}

/// The version of this key that a request reads, by the rule of `judge`. `versions` are those of one key,
/// newest first.
pub fn pick<B>(versions: &[Version<B>], asked: Option<VersionId>) -> Result<Picked<'_, B>, Refusal>
    ensures value { IfOk result (λ picked. pick_rule asked versions.now ≡ Ok (picked.version.now, picked.stored.now)) }
    ensures refused { IfErr result (λ refusal. pick_rule asked versions.now ≡ Err refusal) }
{
    match asked {
        None => judge(asked, current(versions)),
        Some(id) => judge(asked, version_under(versions, id)),
    }
}

// The refusal where there is no version.
fn absent<B>(asked: Option<VersionId>) -> Refusal
    ensures { rule {B = B} asked None ≡ Err result }
{
    let code = match asked {
        None => Code::NoSuchKey,
        Some(_) => Code::NoSuchVersion,
    };
    Refusal {
        code,
        is_delete_marker: false,
    }
}

// The refusal where the version is a delete marker.
fn marked<B>(asked: Option<VersionId>) -> Refusal
    ensures { (v : Version B) → stored v ≡ None → rule asked (Some v) ≡ Err result }
{
    let code = match asked {
        None => Code::NoSuchKey,
        Some(_) => Code::MethodNotAllowed,
    };
    Refusal {
        code,
        is_delete_marker: true,
    }
}
