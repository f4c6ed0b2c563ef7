//! From a verified head to the operation that it asks for.
ghost use Rattle.std.specs.Prelude.{◌≡◌, true, false, codes, Ok};
ghost use Rattle.s3_http_heads.specs.Target.{has_parameter};
ghost use Rattle.s3_requests.specs.Memory.{FollowsWhere};
ghost use Rattle.s3_requests.specs.Memory as memory;
ghost use Rattle.s3_requests.specs.Operations.{is_xml};
ghost use Rattle.s3_requests.specs.Routing as rules;

use crate::addresses::{address_at, is_service};
use crate::arguments::version_argument;
use crate::copies::{object_copy, part_copy};
use crate::description::description_of;
use crate::list_arguments::{objects_asked, parts_asked, uploads_asked, versions_asked};
use crate::operations::{Operation, bucket_operation, is_served, key_operation, service_operation};
use crate::overrides::overrides_asked;
use crate::protection::is_protected;
use crate::read_conditions::conditions_of;
use crate::storage_class::asks_for_no_class;
use crate::unserved::asks_for_more;
use crate::upload_arguments::{part_argument, upload_argument};
use crate::write_condition::{condition_of, deletion_said, tags_wanted};
use s3_config::Config;
use s3_http_heads::{Head, Target};
use s3_machine::{
    BucketCommand, Command, Description, KeyCommand, ObjectRead, Region, UploadCommand,
    WriteCondition,
};
use s3_names::{BucketName, Key, PartNumber, UploadId};
use s3_prefixes::{ListVersion, Text};
use s3_terms::{Code, Dialect};
use std::alloc::Global;

/// What a head asks for, before the body is read: a command, where that needs no body, or what waits for its body.
#[derive(Drop)]
pub enum Plan {
    /// What needs no body.
    Ready(Command),
    /// Make the bucket, where the body may name this region (CreateBucket where documents are XML).
    CreateBucket {
        name: BucketName,
        region: Text,
    },
    /// Set the versioning of the bucket to what the body says (PutBucketVersioning).
    PutVersioning {
        name: BucketName,
        /// How the body spells it.
        dialect: Dialect,
    },
    /// Store the body under the key (PutObject).
    Put {
        bucket: BucketName,
        key: Key,
        said: Description,
        condition: WriteCondition,
    },
    /// Put the body under this number, as a part of the upload (UploadPart).
    PutPart {
        bucket: BucketName,
        key: Key,
        id: UploadId,
        number: PartNumber,
    },
    /// Store the parts that the body lists, and end the upload (CompleteMultipartUpload).
    Complete {
        bucket: BucketName,
        key: Key,
        id: UploadId,
        /// How the body spells them.
        dialect: Dialect,
        condition: WriteCondition,
    },
    /// Delete the objects of the bucket that the body names (DeleteObjects).
    DeleteObjects {
        bucket: BucketName,
    },
}

/// What is asked under a key, before its names are put to it: a command of the key or of an upload to it, or what waits for
/// its body.
#[derive(Drop)]
pub(crate) enum KeyAsked {
    Key(KeyCommand),
    Upload {
        id: UploadId,
        asked: UploadCommand,
    },
    Put {
        said: Description,
        condition: WriteCondition,
    },
    PutPart {
        id: UploadId,
        number: PartNumber,
    },
    Complete {
        id: UploadId,
        dialect: Dialect,
        condition: WriteCondition,
    },
}

/// The operation that a verified head asks for, with its bucket, its key and its arguments (Amazon S3 User
/// Guide, "Path-style requests"). A refusal is the first fault of routing in the order of
/// `docs/PROTOCOL.md`; `InternalError` says that memory ran out: for the bucket's name or the key, where one of more than 38
/// bytes is right, or, behind these, for what an operation copies that this server has. That is what a put, a copy or the
/// beginning of an upload says of its object, the tags that a condition names, what the reply to a read is to say, the source of a copy, the texts that a list is
/// asked by, and the region that a new bucket may name. What is judged before that is told, whatever memory there is.
/// The cost is linear in the names and the query, and in the header lines times the names of
/// metadata. Of `config` it takes the dialect, by which there are more operations and arguments and by which the documents of
/// bodies are read, and the region that a new bucket may name.
#[tactic(auto, unfolding(crate::specs::Routing::route_of, crate::specs::Memory::RouteTakes))]
pub fn route(alloc: Global, config: &Config, head: &Head) -> Result<Plan, Code>
    ensures { FollowsWhere (memory.RouteTakes config.now.dialect head.now) result (rules.route_of config.now head.now) }
{
    let target = address_at(config.dialect(), head)?;
    if is_service(target) {
        return service_plan(config.dialect(), head);
    }
    named_plan(alloc, config, head, target)
}

// The operation, where there is one, and this server has it and all that the head asks of it: `MethodNotAllowed`, then
// `NotImplemented`, and then `InvalidStorageClass`.
#[tactic(auto, unfolding(crate::specs::Routing::served))]
fn served(dialect: Dialect, head: &Head, found: Option<Operation>) -> Result<Operation, Code>
    ensures { result ≡ rules.served dialect head.now found }
{
    let operation = found.ok_or(Code::MethodNotAllowed)?;
    if !is_served(dialect, operation) {
        return Err(Code::NotImplemented);
    }
    if asks_for_more(dialect, operation, head) {
        return Err(Code::NotImplemented);
    }
    if asks_for_no_class(dialect, operation, head) {
        return Err(Code::InvalidStorageClass);
    }
    Ok(operation)
}

// What is asked of the service.
#[tactic(auto, unfolding(crate::specs::Routing::service_plan))]
fn service_plan(dialect: Dialect, head: &Head) -> Result<Plan, Code>
    ensures { result ≡ rules.service_plan dialect head.now }
{
    let operation = served(dialect, head, service_operation(head.method()))?;
    match operation {
        Operation::ListBuckets => Ok(Plan::Ready(Command::ListBuckets)),
        _ => Err(Code::NotImplemented),
    }
}

// What is asked of a bucket, or of a key in it.
#[tactic(auto, unfolding(crate::specs::Routing::named_plan, crate::specs::Memory::NamedTakes))]
fn named_plan(alloc: Global, config: &Config, head: &Head, target: &Target) -> Result<Plan, Code>
    ensures { FollowsWhere (memory.NamedTakes config.now.dialect head.now target.now) result (rules.named_plan config.now head.now target.now) }
{
    let name = BucketName::read(alloc, target.bucket())?;
    if target.key().is_empty() {
        return plan_of_bucket(alloc, config, head, target, name);
    }
    let key = Key::read(alloc, target.key())?;
    let asked = key_plan(alloc, config.dialect(), head, target)?;
    Ok(plan_under(name, key, asked))
}

// The plan of what is asked under this key.
fn plan_under(bucket: BucketName, key: Key, asked: KeyAsked) -> Plan
    ensures { result ≡ rules.plan_under bucket key asked }
{
    match asked {
        KeyAsked::Key(asked) => Plan::Ready(Command::Key { bucket, key, asked }),
        KeyAsked::Upload { id, asked } => Plan::Ready(Command::Upload {
            bucket,
            key,
            id,
            asked,
        }),
        KeyAsked::Put { said, condition } => Plan::Put {
            bucket,
            key,
            said,
            condition,
        },
        KeyAsked::PutPart { id, number } => Plan::PutPart {
            bucket,
            key,
            id,
            number,
        },
        KeyAsked::Complete {
            id,
            dialect,
            condition,
        } => Plan::Complete {
            bucket,
            key,
            id,
            dialect,
            condition,
        },
    }
}

// What is asked of the bucket of this name, or of objects in it.
#[tactic(auto, unfolding(crate::specs::Routing::plan_of_bucket, crate::specs::Memory::BucketTakes))]
fn plan_of_bucket(
    alloc: Global,
    config: &Config,
    head: &Head,
    target: &Target,
    name: BucketName,
) -> Result<Plan, Code>
    ensures { FollowsWhere (memory.BucketTakes config.now.dialect head.now target.now) result (rules.plan_of_bucket config.now name head.now target.now) }
{
    let operation = served(
        config.dialect(),
        head,
        bucket_operation(head.method(), target),
    )?;
    plan_in_bucket(alloc, config, head, target, name, operation)
}

// The same by its operation.
fn plan_in_bucket(
    alloc: Global,
    config: &Config,
    head: &Head,
    target: &Target,
    name: BucketName,
    operation: Operation,
) -> Result<Plan, Code>
    ensures { FollowsWhere (memory.InBucketTakes config.now.dialect operation target.now) result (rules.plan_in_bucket config.now name operation head.now target.now) }
{
    let dialect = config.dialect();
    match operation {
        Operation::CreateBucket => creation_plan(alloc, config, name),
        Operation::PutBucketVersioning => Ok(Plan::PutVersioning { name, dialect }),
        Operation::DeleteObjects => deletion_plan(head, name),
        _ => match bucket_command_for(alloc, dialect, target, operation) {
            Ok(asked) => Ok(Plan::Ready(Command::Bucket { name, asked })),
            Err(code) => Err(code),
        },
    }
}

// CreateBucket, with the region that its body may name where documents are XML; where they are JSON it isn't read.
fn creation_plan(alloc: Global, config: &Config, name: BucketName) -> Result<Plan, Code>
    ensures { FollowsWhere (is_xml config.now.dialect ≡ true) result (Ok (rules.creation_plan config.now.dialect name config.now.region)) }
{
    match config.dialect() {
        Dialect::Json => Ok(Plan::Ready(Command::Bucket {
            name,
            asked: BucketCommand::Create,
        })),
        Dialect::S3 => {
            let region = Region::of(config).text(alloc)?;
            Ok(Plan::CreateBucket { name, region })
        }
    }
}

// DeleteObjects: `InvalidRequest` where its body isn't protected.
fn deletion_plan(head: &Head, bucket: BucketName) -> Result<Plan, Code>
    ensures { result ≡ rules.deletion_plan bucket head.now }
{
    if !is_protected(head) {
        return Err(Code::InvalidRequest);
    }
    Ok(Plan::DeleteObjects { bucket })
}

// What is asked of a bucket itself without a body.
fn bucket_command_for(
    alloc: Global,
    dialect: Dialect,
    target: &Target,
    operation: Operation,
) -> Result<BucketCommand, Code>
    ensures { FollowsWhere (memory.InBucketTakes dialect operation target.now) result (rules.bucket_command_for dialect operation target.now) }
{
    match operation {
        Operation::HeadBucket => Ok(BucketCommand::Head),
        Operation::DeleteBucket => Ok(BucketCommand::Delete),
        Operation::GetBucketVersioning => Ok(BucketCommand::GetVersioning),
        Operation::GetBucketLocation => Ok(BucketCommand::GetLocation),
        Operation::GetBucketConfiguration(which) => Ok(BucketCommand::GetConfiguration(which)),
        Operation::ListObjects => first_list(alloc, dialect, target),
        Operation::ListObjectsV2 => list_of_objects(alloc, dialect, ListVersion::Second, target),
        Operation::ListObjectVersions => list_of_versions(alloc, dialect, target),
        Operation::ListMultipartUploads => list_of_uploads(alloc, dialect, target),
        _ => Err(Code::NotImplemented),
    }
}

// ListObjects, with what is asked of the list: `NotImplemented` where another type of list is asked for.
fn first_list(alloc: Global, dialect: Dialect, target: &Target) -> Result<BucketCommand, Code>
    ensures { FollowsWhere ((has_parameter (codes "list-type") target.now ≡ false) × memory.ObjectsTake target.now) result (rules.first_list dialect target.now) }
{
    if target.has_parameter(b"list-type") {
        return Err(Code::NotImplemented);
    }
    list_of_objects(alloc, dialect, ListVersion::First, target)
}

// A list of objects in this version, with what is asked of it.
fn list_of_objects(
    alloc: Global,
    dialect: Dialect,
    version: ListVersion,
    target: &Target,
) -> Result<BucketCommand, Code>
    ensures { FollowsWhere (memory.ObjectsTake target.now) result (rules.list_of_objects dialect version target.now) }
{
    let asked = objects_asked(alloc, dialect, version, target)?;
    Ok(BucketCommand::ListObjects(asked))
}

// ListObjectVersions, with what is asked of the list.
fn list_of_versions(alloc: Global, dialect: Dialect, target: &Target) -> Result<BucketCommand, Code>
    ensures { FollowsWhere (memory.KeysTake dialect (codes "max-keys") target.now) result (rules.list_of_versions dialect target.now) }
{
    let asked = versions_asked(alloc, dialect, target)?;
    Ok(BucketCommand::ListVersions(asked))
}

// ListMultipartUploads, with what is asked of the list.
fn list_of_uploads(alloc: Global, dialect: Dialect, target: &Target) -> Result<BucketCommand, Code>
    ensures { FollowsWhere (memory.KeysTake dialect (codes "max-uploads") target.now) result (rules.list_of_uploads dialect target.now) }
{
    let asked = uploads_asked(alloc, dialect, target)?;
    Ok(BucketCommand::ListUploads(asked))
}

// What is asked of a key, or of an upload to it.
#[tactic(auto, unfolding(crate::specs::Routing::key_plan, crate::specs::Memory::KeyTakes))]
fn key_plan(alloc: Global, dialect: Dialect, head: &Head, target: &Target) -> Result<KeyAsked, Code>
    ensures { FollowsWhere (memory.KeyTakes dialect head.now target.now) result (rules.key_plan dialect head.now target.now) }
{
    let operation = served(dialect, head, key_operation(head.method(), head, target))?;
    asked_for(alloc, dialect, head, target, operation)
}

// The same by its operation.
fn asked_for(
    alloc: Global,
    dialect: Dialect,
    head: &Head,
    target: &Target,
    operation: Operation,
) -> Result<KeyAsked, Code>
    ensures { FollowsWhere (memory.UnderKeyTakes dialect operation head.now target.now) result (rules.asked_for dialect operation head.now target.now) }
{
    match operation {
        Operation::PutObject => put_plan(alloc, dialect, head),
        Operation::UploadPart => part_plan(target),
        Operation::UploadPartCopy => part_copy_plan(alloc, dialect, head, target),
        Operation::ListParts => parts_plan(target),
        Operation::CompleteMultipartUpload => complete_plan(alloc, dialect, head, target),
        Operation::AbortMultipartUpload => abort_plan(target),
        _ => match key_command_for(alloc, dialect, head, target, operation) {
            Ok(asked) => Ok(KeyAsked::Key(asked)),
            Err(code) => Err(code),
        },
    }
}

// PutObject, with what the head says of the object, and its condition.
#[tactic(auto, unfolding(crate::specs::Routing::put_plan), using(crate::proofs::MemoryLemmas::described_takes))]
fn put_plan(alloc: Global, dialect: Dialect, head: &Head) -> Result<KeyAsked, Code>
    ensures { FollowsWhere (memory.DescriptionTakes head.now) result (rules.put_plan dialect head.now) }
{
    let said = description_of(alloc, dialect, head)?;
    let condition = condition_of(alloc, dialect, head)?;
    Ok(KeyAsked::Put { said, condition })
}

// UploadPart, with its part.
fn part_plan(target: &Target) -> Result<KeyAsked, Code>
    ensures { result ≡ rules.part_plan target.now }
{
    let (id, number) = part_argument(target)?;
    Ok(KeyAsked::PutPart { id, number })
}

// UploadPartCopy, with its part, and what it copies.
#[tactic(auto, unfolding(crate::specs::Routing::part_copy_plan))]
fn part_copy_plan(
    alloc: Global,
    dialect: Dialect,
    head: &Head,
    target: &Target,
) -> Result<KeyAsked, Code>
    ensures { FollowsWhere (memory.PartCopyTakes dialect head.now target.now) result (rules.part_copy_plan dialect head.now target.now) }
{
    let (id, number) = part_argument(target)?;
    let copy = part_copy(alloc, dialect, head)?;
    Ok(KeyAsked::Upload {
        id,
        asked: UploadCommand::CopyPart { number, copy },
    })
}

// ListParts, with what is asked of the list, and its upload.
#[tactic(auto, unfolding(crate::specs::Routing::parts_plan))]
fn parts_plan(target: &Target) -> Result<KeyAsked, Code>
    ensures { result ≡ rules.parts_plan target.now }
{
    let asked = parts_asked(target)?;
    let id = upload_argument(target)?;
    Ok(KeyAsked::Upload {
        id,
        asked: UploadCommand::ListParts(asked),
    })
}

// CompleteMultipartUpload, with its upload, its condition, and the dialect of the document that it brings.
#[tactic(auto, unfolding(crate::specs::Routing::complete_plan))]
fn complete_plan(
    alloc: Global,
    dialect: Dialect,
    head: &Head,
    target: &Target,
) -> Result<KeyAsked, Code>
    ensures { FollowsWhere (memory.CompletionTakes dialect head.now target.now) result (rules.complete_plan dialect head.now target.now) }
{
    let id = upload_argument(target)?;
    let condition = condition_of(alloc, dialect, head)?;
    Ok(KeyAsked::Complete {
        id,
        dialect,
        condition,
    })
}

// AbortMultipartUpload, with its upload.
fn abort_plan(target: &Target) -> Result<KeyAsked, Code>
    ensures { result ≡ rules.abort_plan target.now }
{
    let id = upload_argument(target)?;
    Ok(KeyAsked::Upload {
        id,
        asked: UploadCommand::Abort,
    })
}

// What is asked of a key itself by this operation, without a body.
#[tactic(auto, unfolding(crate::specs::Routing::key_command_for))]
fn key_command_for(
    alloc: Global,
    dialect: Dialect,
    head: &Head,
    target: &Target,
    operation: Operation,
) -> Result<KeyCommand, Code>
    ensures { FollowsWhere (memory.UnderKeyTakes dialect operation head.now target.now) result (rules.key_command_for dialect operation head.now target.now) }
{
    match operation {
        Operation::CopyObject => copy_command(alloc, dialect, head, target),
        Operation::GetObject | Operation::HeadObject => {
            read_command(alloc, dialect, head, target)
        }
        Operation::GetObjectTagging => tags_command(target),
        Operation::DeleteObject => delete_command(alloc, dialect, head, target),
        Operation::CreateMultipartUpload => begin_command(alloc, dialect, head),
        _ => Err(Code::NotImplemented),
    }
}

// CopyObject, with what it copies.
fn copy_command(
    alloc: Global,
    dialect: Dialect,
    head: &Head,
    target: &Target,
) -> Result<KeyCommand, Code>
    ensures { FollowsWhere (memory.CopyTakes dialect head.now) result (rules.copy_command dialect head.now target.now) }
{
    let copy = object_copy(alloc, dialect, head, target)?;
    Ok(KeyCommand::Copy(copy))
}

// GetObject and HeadObject, with what the head asks of the version.
#[tactic(auto, unfolding(crate::specs::Routing::read_command))]
fn read_command(
    alloc: Global,
    dialect: Dialect,
    head: &Head,
    target: &Target,
) -> Result<KeyCommand, Code>
    ensures { FollowsWhere (memory.ReadTakes dialect head.now target.now) result (rules.read_command dialect head.now target.now) }
{
    let version = version_argument(target, b"versionId")?;
    let overrides = overrides_asked(alloc, dialect, target)?;
    let conditions = conditions_of(alloc, head)?;
    Ok(KeyCommand::Read(ObjectRead {
        version,
        conditions,
        overrides,
    }))
}

// GetObjectTagging.
#[tactic(auto, unfolding(crate::specs::Routing::tags_command))]
fn tags_command(target: &Target) -> Result<KeyCommand, Code>
    ensures { result ≡ rules.tags_command target.now }
{
    let version = version_argument(target, b"versionId")?;
    Ok(KeyCommand::ReadTags { version })
}

// DeleteObject, on the condition that its head sets.
#[tactic(auto, unfolding(crate::specs::Routing::delete_command))]
fn delete_command(
    alloc: Global,
    dialect: Dialect,
    head: &Head,
    target: &Target,
) -> Result<KeyCommand, Code>
    ensures { FollowsWhere (memory.DeleteTakes dialect head.now target.now) result (rules.delete_command dialect head.now target.now) }
{
    let version = version_argument(target, b"versionId")?;
    deletion_said(alloc, version, tags_wanted(dialect, head))
}

// CreateMultipartUpload, with what the head says of the object.
fn begin_command(alloc: Global, dialect: Dialect, head: &Head) -> Result<KeyCommand, Code>
    ensures { FollowsWhere (memory.DescriptionTakes head.now) result (rules.begin_command dialect head.now) }
{
    let said = description_of(alloc, dialect, head)?;
    Ok(KeyCommand::Begin(said))
}
