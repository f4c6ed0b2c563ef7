//! The arguments of operations.
ghost use Rattle.std.specs.Prelude.{◌≡◌};
ghost use Rattle.s3_requests.specs.Arguments as rules;

use s3_http_heads::Target;
use s3_names::VersionId;
use s3_terms::Code;

// The version that the first parameter of this name names, if one is there: `InvalidArgument` where its value is no id.
#[tactic(auto, unfolding(crate::specs::Arguments::version_argument))]
pub(crate) fn version_argument(target: &Target, name: &[u8]) -> Result<Option<VersionId>, Code>
    ensures { result ≡ rules.version_argument name.now target.now }
{
    match target.first(name) {
        None => Ok(None),
        Some(text) => read_id(text),
    }
}

// The version whose id a text is: `InvalidArgument` where it is no id.
pub(crate) fn read_id(text: &[u8]) -> Result<Option<VersionId>, Code>
    ensures { result ≡ rules.id_read text.now }
{
    match VersionId::read(text) {
        Some(id) => Ok(Some(id)),
        None => Err(Code::InvalidArgument),
    }
}
