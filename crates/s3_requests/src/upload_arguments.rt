//! Which upload is meant, and which part of it.
ghost use Rattle.std.specs.Prelude.{◌≡◌};
ghost use Rattle.s3_requests.specs.UploadArguments as rules;

use crate::list_arguments::value_of;
use s3_http_heads::Target;
use s3_names::{PartNumber, UploadId};
use s3_terms::Code;

// The upload that is meant: `NoSuchUpload` where what names it is no id.
pub(crate) fn upload_argument(target: &Target) -> Result<UploadId, Code>
    ensures { result ≡ rules.upload_argument target.now }
{
    read_upload(value_of(target, b"uploadId"))
}

// The upload and the number of the part that is sent to it. `InvalidArgument` where one of the two isn't there, or the
// number isn't one of a part, and then `NoSuchUpload` where what names the upload is no id.
#[tactic(auto, unfolding(crate::specs::UploadArguments::part_argument))]
pub(crate) fn part_argument(target: &Target) -> Result<(UploadId, PartNumber), Code>
    ensures { result ≡ rules.part_argument target.now }
{
    let digits = target.first(b"partNumber").ok_or(Code::InvalidArgument)?;
    let text = target.first(b"uploadId").ok_or(Code::InvalidArgument)?;
    let number = PartNumber::read(digits).ok_or(Code::InvalidArgument)?;
    let id = read_upload(text)?;
    Ok((id, number))
}

// The upload whose id a text is.
fn read_upload(text: &[u8]) -> Result<UploadId, Code>
    ensures { result ≡ rules.upload_named text.now }
{
    UploadId::read(text).ok_or(Code::NoSuchUpload)
}
