//! The codes of refusals.
ghost use Rattle.std.specs.Prelude.{◌≡◌};

use crate::Status;
use std::fmt;

/// Why a request is refused: error codes of the Amazon S3 API Reference ("Error responses") that this
/// server answers or is to answer, and three of its own: `MalformedHead`, `HeadTooLarge` and
/// `MalformedBody`.
#[derive(Clone, Copy, PartialEq, Eq)]
pub enum Code {
    MalformedHead = 1,
    HeadTooLarge = 2,
    NotImplemented = 3,
    InvalidRequest = 4,
    MissingContentLength = 5,
    EntityTooLarge = 6,
    InvalidURI = 7,
    AccessDenied = 8,
    AuthorizationHeaderMalformed = 9,
    RequestTimeTooSkewed = 10,
    InvalidArgument = 11,
    InvalidAccessKeyId = 12,
    SignatureDoesNotMatch = 13,
    InvalidDigest = 14,
    InvalidBucketName = 15,
    KeyTooLongError = 16,
    MethodNotAllowed = 17,
    MetadataTooLarge = 18,
    NoSuchUpload = 19,
    IncompleteBody = 20,
    XAmzContentSHA256Mismatch = 21,
    BadDigest = 22,
    MalformedBody = 23,
    NoSuchBucket = 24,
    BucketAlreadyOwnedByYou = 25,
    BucketNotEmpty = 26,
    NoSuchKey = 27,
    NoSuchVersion = 28,
    PreconditionFailed = 29,
    InvalidRange = 30,
    InvalidPartOrder = 31,
    InvalidPart = 32,
    EntityTooSmall = 33,
    InternalError = 34,
    AuthorizationQueryParametersError = 35,
    MalformedXML = 36,
    InvalidLocationConstraint = 37,
    NoSuchBucketPolicy = 38,
    NoSuchCORSConfiguration = 39,
    NoSuchLifecycleConfiguration = 40,
    NoSuchPublicAccessBlockConfiguration = 41,
    NoSuchTagSet = 42,
    NoSuchWebsiteConfiguration = 43,
    ObjectLockConfigurationNotFoundError = 44,
    OwnershipControlsNotFoundError = 45,
    ReplicationConfigurationNotFoundError = 46,
    ServerSideEncryptionConfigurationNotFoundError = 47,
    InvalidStorageClass = 48,
}

impl Code {
    ghost use Rattle.s3_terms.specs.Code.{number_of, status_of, name_of, message_of};

    /// The code's number in the table of `docs/PROTOCOL.md`, from 1.
    pub fn number(self) -> u8
        ensures { result ≡ number_of self }
    {
        self as u8
    }

    /// The HTTP status that a refusal with this code has.
    pub fn status(self) -> Status
        ensures { result ≡ status_of self }
    {
        match self {
            Code::NotImplemented => Status::NotImplemented,
            Code::MissingContentLength => Status::LengthRequired,
            Code::AccessDenied
            | Code::RequestTimeTooSkewed
            | Code::InvalidAccessKeyId
            | Code::SignatureDoesNotMatch => Status::Forbidden,
            Code::MethodNotAllowed => Status::MethodNotAllowed,
            Code::NoSuchUpload
            | Code::NoSuchBucket
            | Code::NoSuchKey
            | Code::NoSuchVersion
            | Code::NoSuchBucketPolicy
            | Code::NoSuchCORSConfiguration
            | Code::NoSuchLifecycleConfiguration
            | Code::NoSuchPublicAccessBlockConfiguration
            | Code::NoSuchTagSet
            | Code::NoSuchWebsiteConfiguration
            | Code::ObjectLockConfigurationNotFoundError
            | Code::OwnershipControlsNotFoundError
            | Code::ReplicationConfigurationNotFoundError
            | Code::ServerSideEncryptionConfigurationNotFoundError => Status::NotFound,
            Code::BucketAlreadyOwnedByYou | Code::BucketNotEmpty => Status::Conflict,
            Code::PreconditionFailed => Status::PreconditionFailed,
            Code::InvalidRange => Status::RangeNotSatisfiable,
            Code::InternalError => Status::InternalServerError,
            Code::MalformedHead
            | Code::HeadTooLarge
            | Code::InvalidRequest
            | Code::EntityTooLarge
            | Code::InvalidURI
            | Code::AuthorizationHeaderMalformed
            | Code::InvalidArgument
            | Code::InvalidDigest
            | Code::InvalidBucketName
            | Code::KeyTooLongError
            | Code::MetadataTooLarge
            | Code::IncompleteBody
            | Code::XAmzContentSHA256Mismatch
            | Code::BadDigest
            | Code::MalformedBody
            | Code::InvalidPartOrder
            | Code::InvalidPart
            | Code::EntityTooSmall
            | Code::AuthorizationQueryParametersError
            | Code::MalformedXML
            | Code::InvalidLocationConstraint
            | Code::InvalidStorageClass => Status::BadRequest,
        }
    }

    /// The code as the member `Code` of an error document has it.
    pub fn name(self) -> &'static str
        ensures { result.now ≡ name_of self }
    {
        match self {
            Code::MalformedHead => "MalformedHead",
            Code::HeadTooLarge => "HeadTooLarge",
            Code::NotImplemented => "NotImplemented",
            Code::InvalidRequest => "InvalidRequest",
            Code::MissingContentLength => "MissingContentLength",
            Code::EntityTooLarge => "EntityTooLarge",
            Code::InvalidURI => "InvalidURI",
            Code::AccessDenied => "AccessDenied",
            Code::AuthorizationHeaderMalformed => "AuthorizationHeaderMalformed",
            Code::RequestTimeTooSkewed => "RequestTimeTooSkewed",
            Code::InvalidArgument => "InvalidArgument",
            Code::InvalidAccessKeyId => "InvalidAccessKeyId",
            Code::SignatureDoesNotMatch => "SignatureDoesNotMatch",
            Code::InvalidDigest => "InvalidDigest",
            Code::InvalidBucketName => "InvalidBucketName",
            Code::KeyTooLongError => "KeyTooLongError",
            Code::MethodNotAllowed => "MethodNotAllowed",
            Code::MetadataTooLarge => "MetadataTooLarge",
            Code::NoSuchUpload => "NoSuchUpload",
            Code::IncompleteBody => "IncompleteBody",
            Code::XAmzContentSHA256Mismatch => "XAmzContentSHA256Mismatch",
            Code::BadDigest => "BadDigest",
            Code::MalformedBody => "MalformedBody",
            Code::NoSuchBucket => "NoSuchBucket",
            Code::BucketAlreadyOwnedByYou => "BucketAlreadyOwnedByYou",
            Code::BucketNotEmpty => "BucketNotEmpty",
            Code::NoSuchKey => "NoSuchKey",
            Code::NoSuchVersion => "NoSuchVersion",
            Code::PreconditionFailed => "PreconditionFailed",
            Code::InvalidRange => "InvalidRange",
            Code::InvalidPartOrder => "InvalidPartOrder",
            Code::InvalidPart => "InvalidPart",
            Code::EntityTooSmall => "EntityTooSmall",
            Code::InternalError => "InternalError",
            Code::AuthorizationQueryParametersError => "AuthorizationQueryParametersError",
            Code::MalformedXML => "MalformedXML",
            Code::InvalidLocationConstraint => "InvalidLocationConstraint",
            Code::NoSuchBucketPolicy => "NoSuchBucketPolicy",
            Code::NoSuchCORSConfiguration => "NoSuchCORSConfiguration",
            Code::NoSuchLifecycleConfiguration => "NoSuchLifecycleConfiguration",
            Code::NoSuchPublicAccessBlockConfiguration => "NoSuchPublicAccessBlockConfiguration",
            Code::NoSuchTagSet => "NoSuchTagSet",
            Code::NoSuchWebsiteConfiguration => "NoSuchWebsiteConfiguration",
            Code::ObjectLockConfigurationNotFoundError => "ObjectLockConfigurationNotFoundError",
            Code::OwnershipControlsNotFoundError => "OwnershipControlsNotFoundError",
            Code::ReplicationConfigurationNotFoundError => "ReplicationConfigurationNotFoundError",
            Code::ServerSideEncryptionConfigurationNotFoundError => {
                "ServerSideEncryptionConfigurationNotFoundError"
            }
            Code::InvalidStorageClass => "InvalidStorageClass",
        }
    }

    /// The text of the member `Message` of an error document; empty for `InternalError`, which has no
    /// document.
    pub fn message(self) -> &'static str
        ensures { result.now ≡ message_of self }
    {
        match self {
            Code::MalformedHead => "The head is malformed.",
            Code::HeadTooLarge => "The head is too large.",
            Code::NotImplemented => "This is not implemented.",
            Code::InvalidRequest => "The request is invalid.",
            Code::MissingContentLength => "Content-Length is required.",
            Code::EntityTooLarge => "The body is too large.",
            Code::InvalidURI => "The target cannot be read.",
            Code::AccessDenied => "Access is denied.",
            Code::AuthorizationHeaderMalformed => "The authorization is malformed.",
            Code::RequestTimeTooSkewed => "The request time is too far off.",
            Code::InvalidArgument => "An argument is invalid.",
            Code::InvalidAccessKeyId => "The access key id is unknown.",
            Code::SignatureDoesNotMatch => "The signature does not match.",
            Code::InvalidDigest => "The Content-MD5 is not valid.",
            Code::InvalidBucketName => "The bucket name is not valid.",
            Code::KeyTooLongError => "The key is too long.",
            Code::MethodNotAllowed => "The method is not allowed here.",
            Code::MetadataTooLarge => "The metadata is too large.",
            Code::NoSuchUpload => "The upload does not exist.",
            Code::IncompleteBody => "The body is incomplete.",
            Code::XAmzContentSHA256Mismatch => "The body hash does not match.",
            Code::BadDigest => "The body MD5 does not match.",
            Code::MalformedBody => "The body is not the expected JSON.",
            Code::NoSuchBucket => "The bucket does not exist.",
            Code::BucketAlreadyOwnedByYou => "The bucket is already there.",
            Code::BucketNotEmpty => "The bucket is not empty.",
            Code::NoSuchKey => "The key does not exist.",
            Code::NoSuchVersion => "The version does not exist.",
            Code::PreconditionFailed => "A precondition failed.",
            Code::InvalidRange => "The range is not satisfiable.",
            Code::InvalidPartOrder => "The parts are not in order.",
            Code::InvalidPart => "A listed part is not there.",
            Code::EntityTooSmall => "A part is too small.",
            Code::InternalError => "",
            Code::AuthorizationQueryParametersError => "The signing query is malformed.",
            Code::MalformedXML => "The body is not the expected XML.",
            Code::InvalidLocationConstraint => "The location constraint is not this region.",
            Code::NoSuchBucketPolicy => "The bucket has no policy.",
            Code::NoSuchCORSConfiguration => "The bucket has no CORS rules.",
            Code::NoSuchLifecycleConfiguration => "The bucket has no lifecycle rules.",
            Code::NoSuchPublicAccessBlockConfiguration => "The bucket blocks no public access.",
            Code::NoSuchTagSet => "The bucket has no tags.",
            Code::NoSuchWebsiteConfiguration => "The bucket is no website.",
            Code::ObjectLockConfigurationNotFoundError => "The bucket has no object lock.",
            Code::OwnershipControlsNotFoundError => "The bucket has no ownership controls.",
            Code::ReplicationConfigurationNotFoundError => "The bucket has no replication rules.",
            Code::ServerSideEncryptionConfigurationNotFoundError => {
                "The bucket has no default encryption."
            }
            Code::InvalidStorageClass => "The storage class is not valid.",
        }
    }
}

/// A code is printed by its name.
impl fmt::Debug for Code {
    fn fmt<W: fmt::Write>(&self, f: &mut fmt::Formatter<W>) -> fmt::Result {
        f.write_str(self.name())
    }
}
