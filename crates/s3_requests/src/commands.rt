//! From a plan and the body that came with its message to a command.
ghost use Rattle.std.specs.Prelude.{◌≡◌, ◌<◌, true, is_some, length, IfOk, IfErr, OnErr};
ghost use Rattle.s3_terms.specs.Fault.{Follows};
ghost use Rattle.s3_requests.specs.Commands as rules;

use crate::kept_sum::with_sum;
use crate::routing::Plan;
use s3_bodies::Payload;
use s3_integrity::Checksum;
use s3_machine::{
    BucketCommand, Command, Description, KeyCommand, ObjectPut, UploadCommand, WriteCondition,
};
use s3_names::{BucketName, Key, UploadId};
use s3_prefixes::Text;
use s3_request_documents::{read_completion, read_deletion, read_location, read_versioning};
use s3_terms::{Code, Dialect, NoMemory};
use std::alloc::Global;

/// The command of a plan and the body that came with its message, where the operation can use the body. A PutObject keeps the
/// checksum that was found of it. The faults are `MalformedBody` or
/// `MalformedXML`, by the dialect, where it can't, `InvalidArgument` where a completion lists a number that no part has,
/// `InvalidLocationConstraint` where a bucket is to be made in another region, and `NotImplemented` where objects are to be
/// deleted on conditions, and `MetadataTooLarge` where the checksum has no room beside the other metadata. A body that the
/// operation has no use for is dropped. Memory is taken for the document of a
/// PutBucketVersioning, of a CompleteMultipartUpload, of a DeleteObjects or of a CreateBucket that reads one alone, of a body
/// that isn't empty, and for metadata with a checksum; `InternalError` says that there was none.
#[tactic(auto, unfolding(crate::specs::Commands::command_of))]
pub fn command(
    alloc: Global,
    plan: Plan,
    sum: Option<Checksum>,
    payload: Payload,
) -> Result<Command, Code>
    ensures rule { Follows result (rules.command_of plan sum payload) }
    ensures memory { IfErr result (λ code. code ≡ Code.InternalError → rules.CommandTakes plan sum payload) }
{
    match plan {
        Plan::Ready(command) => Ok(command),
        Plan::CreateBucket { name, region } => creation_command(alloc, name, &region, payload),
        Plan::PutVersioning { name, dialect } => versioning_command(alloc, name, dialect, payload),
        Plan::Put {
            bucket,
            key,
            said,
            condition,
        } => put_command(alloc, bucket, key, said, condition, sum, payload),
        Plan::PutPart {
            bucket,
            key,
            id,
            number,
        } => Ok(Command::Upload {
            bucket,
            key,
            id,
            asked: UploadCommand::PutPart { number, payload },
        }),
        Plan::Complete {
            bucket,
            key,
            id,
            dialect,
            condition,
        } => completion_command(alloc, bucket, key, id, dialect, condition, payload),
        Plan::DeleteObjects { bucket } => deletion_command(alloc, bucket, payload),
    }
}

// CreateBucket, where the body may name this region.
fn creation_command(
    alloc: Global,
    name: BucketName,
    region: &Text,
    payload: Payload,
) -> Result<Command, Code>
    ensures rule { Follows result (rules.creation_command_of name region.now payload) }
    ensures memory { IfErr result (λ code. code ≡ Code.InternalError → 0 < length payload) }
{
    let text = text_of(alloc, payload)?;
    match read_location(alloc, region.as_bytes(), text.as_slice()) {
        Ok(()) => Ok(Command::Bucket {
            name,
            asked: BucketCommand::Create,
        }),
        Err(code) => Err(code),
    }
}

// PutBucketVersioning, with the status that the body names.
fn versioning_command(
    alloc: Global,
    name: BucketName,
    dialect: Dialect,
    payload: Payload,
) -> Result<Command, Code>
    ensures rule { Follows result (rules.versioning_command_of name dialect payload) }
    ensures memory { IfErr result (λ code. code ≡ Code.InternalError → 0 < length payload) }
{
    let text = text_of(alloc, payload)?;
    match read_versioning(alloc, dialect, text.as_slice()) {
        Ok(status) => Ok(Command::Bucket {
            name,
            asked: BucketCommand::PutVersioning { status },
        }),
        Err(code) => Err(code),
    }
}

// PutObject, with the checksum that was found of its body among the metadata.
fn put_command(
    alloc: Global,
    bucket: BucketName,
    key: Key,
    said: Description,
    condition: WriteCondition,
    sum: Option<Checksum>,
    payload: Payload,
) -> Result<Command, Code>
    ensures rule { Follows result (rules.put_command_of bucket key said condition sum payload) }
    ensures memory { IfErr result (λ code. code ≡ Code.InternalError → is_some sum ≡ true) }
{
    let Description {
        content_type,
        metadata,
    } = said;
    let metadata = with_sum(alloc, metadata, sum)?;
    Ok(Command::Key {
        bucket,
        key,
        asked: KeyCommand::Put(ObjectPut {
            content_type,
            metadata,
            condition,
            payload,
        }),
    })
}

// CompleteMultipartUpload, with the parts that the body lists.
fn completion_command(
    alloc: Global,
    bucket: BucketName,
    key: Key,
    id: UploadId,
    dialect: Dialect,
    condition: WriteCondition,
    payload: Payload,
) -> Result<Command, Code>
    ensures rule { Follows result (rules.completion_command_of bucket key id dialect condition payload) }
    ensures memory { IfErr result (λ code. code ≡ Code.InternalError → 0 < length payload) }
{
    let text = text_of(alloc, payload)?;
    match read_completion(alloc, dialect, text.as_slice()) {
        Ok(listed) => Ok(Command::Upload {
            bucket,
            key,
            id,
            asked: UploadCommand::Complete { listed, condition },
        }),
        Err(code) => Err(code),
    }
}

// DeleteObjects, with the objects that the body names.
fn deletion_command(alloc: Global, bucket: BucketName, payload: Payload) -> Result<Command, Code>
    ensures rule { Follows result (rules.deletion_command_of bucket payload) }
    ensures memory { IfErr result (λ code. code ≡ Code.InternalError → 0 < length payload) }
{
    let text = text_of(alloc, payload)?;
    match read_deletion(alloc, text.as_slice()) {
        Ok(deletion) => Ok(Command::DeleteObjects { bucket, deletion }),
        Err(code) => Err(code),
    }
}

// The bytes of a body in one piece, which are copied.
fn text_of(alloc: Global, payload: Payload) -> Result<Vec<u8>, NoMemory>
    ensures value { IfOk result (λ text. text.items ≡ payload) }
    ensures memory { OnErr result (0 < length payload) }
{
    let body = payload.into_body()?;
    body.to_vec(alloc)
}
