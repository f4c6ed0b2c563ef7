//! Names, keys, tags and ids, as documents tell them.
ghost use Rattle.std.specs.Prelude.{◌≡◌, ◌≤◌, ◌+◌, ◌++◌, length, IsUtf8};
ghost use Rattle.arrayvec.specs.ArrayVec.{array_vec_len};
ghost use Rattle.s3_names.specs.Ids.{upload_id_text, version_id_text};
ghost use Rattle.s3_documents.specs.Copied.{tag_told};
ghost use Rattle.s3_documents.specs.UploadList.{upload_marker_told};
ghost use Rattle.s3_documents.specs.VersionList.{marker_told};

use crate::printer::text_of;
use arrayvec::ArrayVec;
use s3_names::{BucketName, Key, Tag, UploadId, VersionId};
use s3_prefixes::Text;

/// No tag is longer, with its double quotes.
const TAG_MAX: usize = 40;

/// No id is longer.
pub(crate) const ID_MAX: usize = 17;

/// The name of a bucket.
#[tactic(auto, using(crate::proofs::PrinterLemmas::names))]
pub(crate) fn name_told(name: &BucketName) -> &str
    ensures { result.now ≡ name.now }
{
    text_of(name.as_bytes())
}

/// A key.
pub(crate) fn key_told(key: &Key) -> &str
    ensures { result.now ≡ key.now }
{
    text_of(key.as_bytes())
}

/// What a list is asked by, or tells.
pub(crate) fn text_told(text: &Text) -> &str
    ensures { result.now ≡ text.now }
{
    text_of(text.as_bytes())
}

/// A tag, in double quotes.
#[tactic(auto, using(crate::proofs::CopiedLemmas::tag_utf8))]
pub(crate) fn quoted(tag: &Tag) -> ArrayVec<u8, TAG_MAX>
    ensures value { result.items ≡ tag_told tag.now }
    ensures utf8 { IsUtf8 result.items }
{
    let mut told = ArrayVec::new();
    put(&mut told, b"\"");
    put(&mut told, tag.text().as_bytes());
    put(&mut told, b"\"");
    told
}

/// Puts a text behind others, for which there is room.
pub(crate) fn put<const MOST: usize>(told: &mut ArrayVec<u8, MOST>, text: &[u8])
    requires { array_vec_len told.old + length text.now ≤ MOST }
    ensures items { told.new.items ≡ told.old.items ++ text.now }
    ensures len { array_vec_len told.new ≡ array_vec_len told.old + length text.now }
{
    let _fits = told.try_extend_from_slice(text);
}

/// The id of a version; an empty text where there is none.
pub(crate) fn id_told(id: Option<VersionId>) -> ArrayVec<u8, ID_MAX>
    ensures value { result.items ≡ marker_told id }
    ensures utf8 { IsUtf8 result.items }
{
    match id {
        Some(id) => id_spelled(id),
        None => ArrayVec::new(),
    }
}

fn id_spelled(id: VersionId) -> ArrayVec<u8, ID_MAX>
    ensures { result.items ≡ version_id_text id }
{
    let text = id.text();
    let mut told = ArrayVec::new();
    let _fits = told.try_extend_from_slice(text.as_bytes());
    told
}

/// The id of an upload; an empty text where there is none.
pub(crate) fn upload_id_told(id: Option<UploadId>) -> ArrayVec<u8, ID_MAX>
    ensures value { result.items ≡ upload_marker_told id }
    ensures utf8 { IsUtf8 result.items }
{
    match id {
        Some(id) => upload_id_spelled(id),
        None => ArrayVec::new(),
    }
}

fn upload_id_spelled(id: UploadId) -> ArrayVec<u8, ID_MAX>
    ensures { result.items ≡ upload_id_text id }
{
    let text = id.text();
    let mut told = ArrayVec::new();
    let _fits = told.try_extend_from_slice(text.as_bytes());
    told
}
