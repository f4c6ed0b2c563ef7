//! How the operations of S3 are spelled in tests: what is planned, what is asked of a store, and what comes of it. An
//! operation has its lines here and its rows in tables; no other test names it.
use crate::texts::{add, add_code, add_number, add_word, is_same};
use s3_bodies::{Body, Payload};
use s3_calendar::Moment;
use s3_conditions::{ByteRange, Conditions, Selection};
use s3_documents::Document;
use s3_machine::{CopyRange, Found, ObjectCopy, Outcome, Source};
use s3_names::{Tag, UploadId, VersionId};
use s3_prefixes::ListVersion;
use s3_requests::{BucketCommand, Command, KeyCommand, Plan, UploadCommand, WriteCondition};
use s3_terms::{Code, Dialect, NoMemory};
use s3_versions::{Data, Versioning, VersioningStatus};
use std::alloc::Global;
use std::mem::drop;

// The list of this version.
fn list_of(version: ListVersion) -> &'static str {
    match version {
        ListVersion::First => "ListObjects",
        ListVersion::Second => "ListObjectsV2",
    }
}

// The operation on a bucket; where a configuration is asked for, the code that says that there is none.
fn bucket_operation(asked: &BucketCommand) -> &'static str {
    match asked {
        BucketCommand::Create => "CreateBucket",
        BucketCommand::Head => "HeadBucket",
        BucketCommand::Delete => "DeleteBucket",
        BucketCommand::PutVersioning { .. } => "PutBucketVersioning",
        BucketCommand::GetVersioning => "GetBucketVersioning",
        BucketCommand::GetLocation => "GetBucketLocation",
        BucketCommand::GetConfiguration(which) => which.absence().name(),
        BucketCommand::ListObjects(asked) => list_of(asked.version),
        BucketCommand::ListVersions(_) => "ListObjectVersions",
        BucketCommand::ListUploads(_) => "ListMultipartUploads",
    }
}

// The operation on a key, and the version that is asked for. A HEAD is the same read as a GET.
fn key_operation(asked: &KeyCommand) -> (&'static str, Option<VersionId>) {
    match asked {
        KeyCommand::Put(_) => ("PutObject", None),
        KeyCommand::Copy(_) => ("CopyObject", None),
        KeyCommand::Read(asked) => ("GetObject", asked.version),
        KeyCommand::ReadTags { version } => ("GetObjectTagging", *version),
        KeyCommand::Delete { version } => ("DeleteObject", *version),
        KeyCommand::DeleteMatching { .. } => ("DeleteObject", None),
        KeyCommand::Begin(_) => ("CreateMultipartUpload", None),
    }
}

// The operation on an upload.
fn upload_operation(asked: &UploadCommand) -> &'static str {
    match asked {
        UploadCommand::PutPart { .. } => "UploadPart",
        UploadCommand::CopyPart { .. } => "UploadPartCopy",
        UploadCommand::Complete { .. } => "CompleteMultipartUpload",
        UploadCommand::Abort => "AbortMultipartUpload",
        UploadCommand::ListParts(_) => "ListParts",
    }
}

// The operation of a command.
fn command_operation(command: &Command) -> &'static str {
    match command {
        Command::ListBuckets => "ListBuckets",
        Command::Bucket { asked, .. } => bucket_operation(asked),
        Command::Key { asked, .. } => key_operation(asked).0,
        Command::Upload { asked, .. } => upload_operation(asked),
        Command::DeleteObjects { .. } => "DeleteObjects",
    }
}

/// The operation.
pub(crate) fn operation(plan: &Plan) -> &'static str {
    match plan {
        Plan::Ready(command) => command_operation(command),
        Plan::CreateBucket { .. } => "CreateBucket",
        Plan::PutVersioning { .. } => "PutBucketVersioning",
        Plan::Put { .. } => "PutObject",
        Plan::PutPart { .. } => "UploadPart",
        Plan::Complete { .. } => "CompleteMultipartUpload",
        Plan::DeleteObjects { .. } => "DeleteObjects",
    }
}

// Adds the id of a version behind a space, if there is one.
fn add_version(out: &mut Vec<u8>, version: Option<VersionId>) {
    if let Some(id) = version {
        add_word(out, id.text().as_bytes());
    }
}

// Adds a number behind a space.
fn add_count(out: &mut Vec<u8>, number: u64) {
    add(out, b" ");
    add_number(out, number);
}

// Adds a bucket and a key, each behind a space.
fn add_place(out: &mut Vec<u8>, bucket: &[u8], key: &[u8]) {
    add_word(out, bucket);
    add_word(out, key);
}

// The range that is asked for.
fn range_word(range: Option<ByteRange>) -> &'static [u8] {
    match range {
        None => b"",
        Some(ByteRange::FromTo { .. }) => b" from-to",
        Some(ByteRange::From { .. }) => b" from",
        Some(ByteRange::Last { .. }) => b" last",
    }
}

// The word where that is there.
fn word_if(is_there: bool, word: &'static [u8]) -> &'static [u8] {
    if is_there { word } else { b"" }
}

// Adds what a read asks of the version.
fn add_conditions(out: &mut Vec<u8>, asked: &Conditions) {
    add(out, word_if(asked.if_match.is_some(), b" match"));
    add(out, word_if(asked.if_none_match.is_some(), b" none-match"));
    add(out, word_if(asked.modified_since.is_some(), b" modified"));
    add(
        out,
        word_if(asked.unmodified_since.is_some(), b" unmodified"),
    );
    add(out, range_word(asked.range));
}

// Adds what is copied.
fn add_source(out: &mut Vec<u8>, source: &Source) {
    add(out, b" from");
    add_place(out, source.bucket.as_bytes(), source.key.as_bytes());
    add_version(out, source.version);
    add_conditions(out, &source.conditions);
}

// Adds which bytes of the source are copied, if they are named.
fn add_range(out: &mut Vec<u8>, range: Option<CopyRange>) {
    if let Some(CopyRange { first, last }) = range {
        add_count(out, first);
        add_count(out, last);
    }
}

// What a write asks of the object that its key has.
fn condition_word(condition: &WriteCondition) -> &'static [u8] {
    match condition {
        WriteCondition::Unconditional => b"",
        WriteCondition::IfAbsent => b" absent",
        WriteCondition::IfMatch(_) => b" match",
    }
}

// Adds what is copied, and whether the copy is described anew.
fn add_copy(out: &mut Vec<u8>, asked: &ObjectCopy) {
    add_source(out, &asked.source);
    add(out, word_if(asked.description.is_some(), b" described"));
}

// Adds what is asked beside the version.
fn add_asked(out: &mut Vec<u8>, asked: &KeyCommand) {
    match asked {
        KeyCommand::Copy(asked) => add_copy(out, asked),
        KeyCommand::Read(asked) => add_conditions(out, &asked.conditions),
        KeyCommand::DeleteMatching { .. } => add(out, b" match"),
        _ => {}
    }
}

// Adds what is asked of an upload: the number of a part and its source, or behind which number how many are listed.
fn add_part(out: &mut Vec<u8>, asked: &UploadCommand) {
    match asked {
        UploadCommand::CopyPart { number, copy } => {
            add_count(out, u64::from(number.get()));
            add_source(out, &copy.source);
            add_range(out, copy.range);
        }
        UploadCommand::ListParts(asked) => {
            add_count(out, asked.marker);
            add_count(out, u64::from(asked.max_parts));
        }
        _ => {}
    }
}

// Adds an upload of this id to a key in a bucket.
fn add_upload(out: &mut Vec<u8>, bucket: &[u8], key: &[u8], id: UploadId) {
    add_place(out, bucket, key);
    add_word(out, id.text().as_bytes());
}

// Adds what is asked without a body, behind the operation.
fn add_ready(out: &mut Vec<u8>, command: &Command) {
    match command {
        Command::ListBuckets => {}
        Command::Bucket { name, .. } => add_word(out, name.as_bytes()),
        Command::Key { bucket, key, asked } => {
            add_place(out, bucket.as_bytes(), key.as_bytes());
            add_version(out, key_operation(asked).1);
            add_asked(out, asked);
        }
        Command::Upload {
            bucket,
            key,
            id,
            asked,
        } => {
            add_upload(out, bucket.as_bytes(), key.as_bytes(), *id);
            add_part(out, asked);
        }
        Command::DeleteObjects { bucket, .. } => add_word(out, bucket.as_bytes()),
    }
}

/// Adds the operation of a plan, its bucket, its key, the id of the version or of the upload that is asked for, and what is asked
/// of it.
pub(crate) fn add_operation(out: &mut Vec<u8>, plan: &Plan) {
    add(out, operation(plan).as_bytes());
    match plan {
        Plan::Ready(command) => add_ready(out, command),
        Plan::CreateBucket { name, .. } => add_word(out, name.as_bytes()),
        Plan::PutVersioning { name, .. } => add_word(out, name.as_bytes()),
        Plan::Put {
            bucket,
            key,
            condition,
            ..
        } => {
            add_place(out, bucket.as_bytes(), key.as_bytes());
            add(out, condition_word(condition));
        }
        Plan::PutPart {
            bucket,
            key,
            id,
            number,
        } => {
            add_upload(out, bucket.as_bytes(), key.as_bytes(), *id);
            add_count(out, u64::from(number.get()));
        }
        Plan::Complete {
            bucket,
            key,
            id,
            condition,
            ..
        } => {
            add_upload(out, bucket.as_bytes(), key.as_bytes(), *id);
            add(out, condition_word(condition));
        }
        Plan::DeleteObjects { bucket } => add_word(out, bucket.as_bytes()),
    }
}

// What a command does to a bucket.
fn bucket_text(asked: &BucketCommand) -> &'static str {
    match asked {
        BucketCommand::PutVersioning {
            status: VersioningStatus::Enabled,
        } => "PutBucketVersioning Enabled",
        BucketCommand::PutVersioning {
            status: VersioningStatus::Suspended,
        } => "PutBucketVersioning Suspended",
        other => bucket_operation(other),
    }
}

// The tag of the bytes `hello`, as md5sum tells it.
const HELLO_TAG: &[u8] = b"5d41402abc4b2a76b9719d911017c592";

// Whether the bytes `hello` came.
fn is_hello(payload: &Payload) -> bool {
    is_same(payload.tag().text().as_bytes(), HELLO_TAG)
}

// Whether a write wants an object with one of some tags.
fn wants_match(condition: &WriteCondition) -> bool {
    matches!(condition, WriteCondition::IfMatch(_))
}

// What a command does to a key.
fn key_text(asked: &KeyCommand) -> &'static str {
    match asked {
        KeyCommand::Put(asked) if wants_match(&asked.condition) => "PutObject of a match",
        KeyCommand::Put(asked) if is_hello(&asked.payload) => "PutObject hello",
        KeyCommand::Read(asked) if asked.version.is_some() => "GetObject of a version",
        KeyCommand::Delete { version: Some(_) } => "DeleteObject of a version",
        KeyCommand::DeleteMatching { .. } => "DeleteObject of a match",
        other => key_operation(other).0,
    }
}

// What a command does to an upload. Of what a completion lists it is told whether it is `hello` alone, as the first part.
fn upload_text(asked: &UploadCommand) -> &'static str {
    match asked {
        UploadCommand::PutPart { payload, .. } if is_hello(payload) => "UploadPart hello",
        UploadCommand::Complete { condition, .. } if wants_match(condition) => {
            "CompleteMultipartUpload of a match"
        }
        UploadCommand::Complete { listed, .. } => match listed.as_slice() {
            [part] if part.number.get() == 1 && is_same(part.tag.as_bytes(), HELLO_TAG) => {
                "CompleteMultipartUpload hello"
            }
            _ => upload_operation(asked),
        },
        other => upload_operation(other),
    }
}

/// The operation of a command, and what is told of its body or of its version.
pub(crate) fn command_text(command: &Command) -> &'static str {
    match command {
        Command::Bucket { asked, .. } => bucket_text(asked),
        Command::Key { asked, .. } => key_text(asked),
        Command::Upload { asked, .. } => upload_text(asked),
        other => command_operation(other),
    }
}

// Adds the word, and the id that is shown, or `-` where none is.
fn add_shown(out: &mut Vec<u8>, word: &[u8], shown: Option<VersionId>) {
    add(out, word);
    match shown {
        Some(id) => add(out, id.text().as_bytes()),
        None => add(out, b"-"),
    }
}

// Whether it has the type and the metadata that every put here brings.
fn is_described(stored: &Data<Body>) -> bool {
    let entries = stored.metadata.entries();
    is_same(stored.content_type.as_bytes(), b"text/plain")
        && entries.len() == 1
        && is_same(entries[0].name(), b"x-amz-meta-colour")
        && is_same(entries[0].value(), b"red")
}

// Adds how a selection is spelled: the bytes, `first-last`, or a word.
fn add_selection(alloc: Global, out: &mut Vec<u8>, body: &Body, selection: Selection) {
    match selection {
        Selection::Whole => add_body(alloc, out, body),
        Selection::Part { first, last } => {
            add_number(out, first);
            add(out, b"-");
            add_number(out, last);
        }
        Selection::Unchanged => add(out, b"unchanged"),
        Selection::Outside => add(out, b"outside"),
    }
}

// Adds the bytes of a body.
fn add_body(alloc: Global, out: &mut Vec<u8>, body: &Body) {
    match body.to_vec(alloc) {
        Ok(bytes) => add(out, &bytes),
        Err(NoMemory) => add_code(out, Code::InternalError),
    }
}

// Adds the id, the seconds and the tag of a version that was read, and what of it is shown.
fn add_got(alloc: Global, out: &mut Vec<u8>, found: &Found<Body>, selection: Selection) {
    let stored = &found.stored;
    if !is_described(stored) || stored.size != stored.body.size() {
        add_code(out, Code::InvalidRequest);
    }
    add_shown(out, b"got ", found.shown);
    add_count(out, found.moment.seconds());
    add_word(out, stored.tag.text().as_bytes());
    add(out, b" ");
    add_selection(alloc, out, &stored.body, selection);
}

// Adds the word, the id that is shown, the seconds and the tag of a copy.
fn add_copied(out: &mut Vec<u8>, word: &[u8], shown: Option<VersionId>, moment: Moment, tag: &Tag) {
    add_shown(out, word, shown);
    add_count(out, moment.seconds());
    add_word(out, tag.text().as_bytes());
}

// Adds the text of a document.
fn add_document(alloc: Global, out: &mut Vec<u8>, document: Document) {
    let body = document.into_body(Dialect::Json);
    add_body(alloc, out, &body);
    drop(body);
}

fn marker(is_delete_marker: bool) -> &'static [u8] {
    word_if(is_delete_marker, b" marker")
}

fn name_of(versioning: Versioning) -> &'static [u8] {
    match versioning {
        Versioning::Unversioned => b"Unversioned",
        Versioning::Enabled => b"Enabled",
        Versioning::Suspended => b"Suspended",
    }
}

// Adds a word, and a name behind it.
fn add_named(out: &mut Vec<u8>, word: &[u8], name: &[u8]) {
    add(out, word);
    add(out, name);
}

// Adds what came of a write of an object or of a part.
fn add_write(out: &mut Vec<u8>, outcome: &Outcome) {
    match outcome {
        Outcome::Put { tag, shown } => {
            add_shown(out, b"stored ", *shown);
            add_word(out, tag.text().as_bytes());
        }
        Outcome::Copied { tag, moment, shown } => add_copied(out, b"copied ", *shown, *moment, tag),
        Outcome::PartPut { tag } => add_named(out, b"part ", tag.text().as_bytes()),
        Outcome::PartCopied {
            tag,
            moment,
            source,
        } => add_copied(out, b"part copied ", *source, *moment, tag),
        _ => {}
    }
}

// Adds what came of a command on a bucket.
fn add_of_bucket(out: &mut Vec<u8>, outcome: &Outcome) {
    match outcome {
        Outcome::BucketMade { name } => add_named(out, b"made ", name.as_bytes()),
        Outcome::BucketFound { region } => add_named(out, b"found ", region.as_bytes()),
        Outcome::BucketDropped => add(out, b"dropped"),
        Outcome::VersioningSet => add(out, b"set"),
        Outcome::BucketVersioning { versioning } => add(out, name_of(*versioning)),
        _ => {}
    }
}

// Adds what came of a read of an object.
fn add_read(alloc: Global, out: &mut Vec<u8>, outcome: &Outcome) {
    match outcome {
        Outcome::Got {
            found,
            selection,
            ..
        } => add_got(alloc, out, found, *selection),
        Outcome::NoTags { shown } => add_shown(out, b"no tags ", *shown),
        Outcome::OutOfRange { size } => {
            add(out, b"out of range ");
            add_number(out, *size);
        }
        _ => {}
    }
}

// Adds what came of a command that tells no document.
fn add_untold(alloc: Global, out: &mut Vec<u8>, outcome: &Outcome) {
    match outcome {
        Outcome::Told { .. } | Outcome::Completed { .. } => {}
        Outcome::BucketMade { .. }
        | Outcome::BucketFound { .. }
        | Outcome::BucketDropped
        | Outcome::VersioningSet
        | Outcome::BucketVersioning { .. } => add_of_bucket(out, outcome),
        Outcome::Put { .. }
        | Outcome::Copied { .. }
        | Outcome::PartPut { .. }
        | Outcome::PartCopied { .. } => add_write(out, outcome),
        Outcome::UploadDropped => add(out, b"upload dropped"),
        Outcome::Got { .. } | Outcome::NoTags { .. } | Outcome::OutOfRange { .. } => {
            add_read(alloc, out, outcome)
        }
        Outcome::Deleted {
            shown,
            is_delete_marker,
        } => {
            add_shown(out, b"deleted ", *shown);
            add(out, marker(*is_delete_marker));
        }
        Outcome::Refused {
            code,
            is_delete_marker,
        } => add_named(out, code.name().as_bytes(), marker(*is_delete_marker)),
    }
}

/// Adds what came of a command.
pub(crate) fn add_outcome(alloc: Global, out: &mut Vec<u8>, outcome: Outcome) {
    match outcome {
        Outcome::Told { document } => add_document(alloc, out, document),
        Outcome::Completed {
            document,
            tag,
            shown,
        } => {
            add_shown(out, b"completed ", shown);
            add_word(out, tag.text().as_bytes());
            add(out, b" ");
            add_document(alloc, out, document);
        }
        other => {
            add_untold(alloc, out, &other);
            drop(other);
        }
    }
}
