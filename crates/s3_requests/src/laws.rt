//! What is known of all plans: laws, with nothing to run.

ghost use Rattle.s3_requests.specs.Laws.{PlansAreUnbroken, ReadyPlansBringNothing, SumsAreUnbroken, TokensAreReadBack};

use s3_http_heads::lines_are_whole;

/// A law: no carriage return is in the media type and the metadata that a head asks to be stored, with its body or when an
/// upload is complete, nor in what it asks the reply to a read to say, nor in metadata with the checksum that is kept of a body,
/// where none is in the metadata without it, so that a reply may tell each in a line.
pub fn plans_are_unbroken()
    ensures plans { PlansAreUnbroken }
    ensures sums { SumsAreUnbroken }
{
    lines_are_whole();
}

/// A law: a command that is ready before the body of its message brings no bytes, neither to be stored under a key nor as a part
/// of an upload, so that what is stored of a message is what came as its body.
pub fn ready_plans_bring_nothing()
    ensures { ReadyPlansBringNothing }
{}

/// A law: what a list of objects tells as its next token, the hexadecimal digits of a text, is read back as that text where
/// a request sends it as its `continuation-token` (Amazon S3 API Reference, ListObjectsV2, `NextContinuationToken`).
pub fn tokens_are_read_back()
    ensures { TokensAreReadBack }
{}
