//! Configurations of buckets that S3 has, and no bucket of this machine has.
ghost use Rattle.std.specs.Prelude.{◌≡◌};
ghost use Rattle.s3_machine.specs.Configuration.{absence_of};

use s3_terms::Code;

/// A configuration of a bucket, by the sub-resource that names it (Amazon S3 API Reference, GetBucketCors,
/// GetBucketEncryption, GetBucketLifecycleConfiguration, GetObjectLockConfiguration, GetBucketOwnershipControls,
/// GetBucketPolicy, GetPublicAccessBlock, GetBucketReplication, GetBucketTagging and GetBucketWebsite).
#[derive(Clone, Copy, PartialEq, Eq)]
pub enum Configuration {
    Cors,
    Encryption,
    Lifecycle,
    ObjectLock,
    OwnershipControls,
    Policy,
    PublicAccessBlock,
    Replication,
    Tagging,
    Website,
}

impl Configuration {
    /// The code by which S3 says that a bucket has none.
    pub fn absence(self) -> Code
        ensures { result ≡ absence_of self }
    {
        match self {
            Configuration::Cors => Code::NoSuchCORSConfiguration,
            Configuration::Encryption => Code::ServerSideEncryptionConfigurationNotFoundError,
            Configuration::Lifecycle => Code::NoSuchLifecycleConfiguration,
            Configuration::ObjectLock => Code::ObjectLockConfigurationNotFoundError,
            Configuration::OwnershipControls => Code::OwnershipControlsNotFoundError,
            Configuration::Policy => Code::NoSuchBucketPolicy,
            Configuration::PublicAccessBlock => Code::NoSuchPublicAccessBlockConfiguration,
            Configuration::Replication => Code::ReplicationConfigurationNotFoundError,
            Configuration::Tagging => Code::NoSuchTagSet,
            Configuration::Website => Code::NoSuchWebsiteConfiguration,
        }
    }
}
