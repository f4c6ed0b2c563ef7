//! The settings that the options and the keys file make.

ghost use Rattle.std.specs.Prelude.{◌≡◌, true, false, Some, None, IfSome, IfOk, IfErr, OnOk, IsErrOf, IsTrue, is_some, option_map, option_to_list};
ghost use Rattle.s3_config.specs.Settings.{are_settings, is_region, is_region_byte};
ghost use Rattle.s3_settings.specs.Fault.{MemoryOr};
ghost use Rattle.s3_settings.specs.Settings.{option_number, option_moment, dialect_named, records_asked, is_bucket_option, are_options, IsSetupOf, HasKeys, settings_of, IsConfigured, IsConfigFault};

use crate::fault::Fault;
use crate::files::{Files, read_file};
use crate::keys::read_keys;
use crate::options::Options;
use crate::records_kind::{RecordsKind, records_asked};
use s3_calendar::Moment;
use s3_config::{Config, Credential};
use s3_names::BucketName;
use s3_terms::{Code, Dialect};
use s3_text::decimal_number;
use std::alloc::{AllocError, Global};

// The most digits of a number.
const DIGITS_MAX: usize = 12;

/// What the options that each subcommand has set up.
#[derive(Drop)]
pub struct Setup<'a> {
    /// The path of the keys file.
    pub keys: &'a str,
    /// The region that signatures name.
    pub region: &'a str,
    /// The least size of a part that is not the last one, in bytes.
    pub min_part: u64,
    /// The greatest size of a body, in bytes.
    pub body_limit: u64,
    /// The bucket that is there from the start.
    pub bucket: Option<BucketName>,
    /// How documents are spelled.
    pub dialect: Dialect,
    /// How records are kept.
    pub records: RecordsKind,
}

impl<'a> Setup<'a> {
    /// Reads what the options ask for: the path of the keys file, the region, the least size of a part, the greatest size
    /// of a body, the name of a bucket, how documents are spelled, and how records are kept.
    ///
    /// # Errors
    ///
    /// `BadSetting` where no keys file is named, or a number, the bucket's name, the dialect or the kind of the records is
    /// out of its form. `OutOfMemory` where there is none for the bucket's name.
    #[tactic(auto, unfolding(crate::specs::Settings::are_options))]
    pub fn read(alloc: Global, options: &Options<'a>) -> Result<Setup<'a>, Fault<'a>>
        ensures value { IfOk result (IsSetupOf options.now) }
        ensures refused { IfErr result (MemoryOr Fault.BadSetting (are_options options.now ≡ false)) }

        // Memory runs out only where nothing is wrong, and for the name of the bucket.
        ensures memory { IsErrOf result Fault.OutOfMemory
            → (are_options options.now ≡ true) × (is_some options.now.bucket ≡ true) }
    {
        let Some(parts) = fixed_parts(options) else {
            return Err(Fault::BadSetting);
        };
        let bucket = bucket(alloc, options.bucket)?;
        Ok(Setup {
            keys: parts.keys,
            region: options.region,
            min_part: parts.min_part,
            body_limit: parts.body_limit,
            bucket,
            dialect: parts.dialect,
            records: parts.records,
        })
    }

    // The keys that the keys file says.
    fn read_keys<F: Files>(&self, alloc: Global, files: &F) -> Result<Vec<Credential>, Fault<'a>>
        ensures value { IfOk result (λ keys. HasKeys (F.known files.now self.now.keys.now) keys.items) }
        ensures refused { IfErr result (IsConfigFault (F.known files.now self.now.keys.now) self.now) }
    {
        let text = read_file(alloc, files, self.keys)?;
        read_keys(alloc, text.as_slice())
    }

    /// The settings that these options and keys make; `BadSetting` where no server accepts them.
    pub fn into_config(self, alloc: Global, keys: Vec<Credential>) -> Result<Config, Fault<'a>>
        ensures value { IfOk result (λ config. config ≡ settings_of self.entry keys.items) }
        ensures valid { OnOk result (IsTrue (are_settings (settings_of self.entry keys.items))) }
        ensures refused { IfErr result (MemoryOr Fault.BadSetting (are_settings (settings_of self.entry keys.items) ≡ false)) }
    {
        let region = Vec::from_slice(alloc, self.region.as_bytes())?;
        let buckets = in_list(alloc, self.bucket)?;
        Config::new(
            region,
            keys,
            self.min_part,
            self.body_limit,
            buckets,
            self.dialect,
        )
        .ok_or(Fault::BadSetting)
    }
}

/// Reads the keys file that a setup names, and makes the settings of a server from the setup and these keys.
///
/// # Errors
///
/// `CannotRead` where the file can't be read, `BadKeysLine` with the number of its first line that is no credential,
/// `BadSetting` where no server accepts the settings, and `OutOfMemory`.
pub fn configure<'a, F: Files>(
    alloc: Global,
    setup: Setup<'a>,
    files: &F,
) -> Result<Config, Fault<'a>>
    ensures value { IfOk result (IsConfigured (F.known files.now setup.entry.keys.now) setup.entry) }
    ensures refused { IfErr result (IsConfigFault (F.known files.now setup.entry.keys.now) setup.entry) }
{
    let keys = setup.read_keys(alloc, files)?;
    setup.into_config(alloc, keys)
}

// What a setup has that takes no memory.
#[derive(Clone, Copy)]
struct FixedParts<'a> {
    keys: &'a str,
    min_part: u64,
    body_limit: u64,
    dialect: Dialect,
    records: RecordsKind,
}

// The parts that options say and that take no memory, if each of these options is there and of its form.
#[tactic(auto, unfolding(crate::specs::Settings::are_options))]
fn fixed_parts<'a>(options: &Options<'a>) -> Option<FixedParts<'a>>
    ensures value { IfSome result (λ parts. (option_map (λ path. path.now) options.now.keys ≡ Some parts.keys.now)
        × (option_number options.now.min_part.now ≡ Some parts.min_part)
        × (option_number options.now.body_limit.now ≡ Some parts.body_limit)
        × (dialect_named options.now.dialect.now ≡ Some parts.dialect)
        × (records_asked (option_map (λ text. text.now) options.now.records) ≡ Some parts.records)) }
    ensures refused { result ≡ None → are_options options.now ≡ false }
{
    Some(FixedParts {
        keys: options.keys?,
        min_part: option_number(options.min_part)?,
        body_limit: option_number(options.body_limit)?,
        dialect: dialect_named(options.dialect)?,
        records: records_asked(options.records)?,
    })
}

// A list of the name that is there.
fn in_list(alloc: Global, name: Option<BucketName>) -> Result<Vec<BucketName>, AllocError>
    ensures { IfOk result (λ names. names.items ≡ option_to_list name) }
{
    match name {
        Some(name) => {
            let mut names = Vec::with_capacity(alloc, 1)?;
            names.push(name)?;
            Ok(names)
        }
        None => Ok(Vec::new(alloc)),
    }
}

/// The number that an option says in 1 to 12 decimal digits; `None` where it says none.
pub fn option_number(text: &str) -> Option<u64>
    ensures { result ≡ option_number text.now }
{
    decimal_number(text.as_bytes(), DIGITS_MAX)
}

/// The moment that an option says in 1 to 12 decimal digits; `None` where it says none, and where it isn't there.
pub fn option_moment(option: Option<&str>) -> Option<Moment>
    ensures { result ≡ option_moment (option_map (λ text. text.now) option.entry) }
{
    Moment::new(option_number(option?)?)
}

// The dialect that an option names: `json` or `s3`; `None` where it names none.
fn dialect_named(text: &str) -> Option<Dialect>
    ensures { result ≡ dialect_named text.now }
{
    match text {
        "json" => Some(Dialect::Json),
        "s3" => Some(Dialect::S3),
        _ => None,
    }
}

// The bucket that an option names, if it does.
fn bucket<'a>(alloc: Global, option: Option<&str>) -> Result<Option<BucketName>, Fault<'a>>
    ensures value { IfOk result (λ bucket. bucket ≡ option_map (λ name. name.now) option.entry) }
    ensures valid { OnOk result (IsTrue (is_bucket_option (option_map (λ name. name.now) option.entry))) }
    ensures refused { IfErr result (MemoryOr Fault.BadSetting (is_bucket_option (option_map (λ name. name.now) option.entry) ≡ false)) }
    ensures memory { IsErrOf result Fault.OutOfMemory
        → (is_bucket_option (option_map (λ name. name.now) option.entry) ≡ true) × (is_some option.entry ≡ true) }
{
    let Some(name) = option else {
        return Ok(None);
    };
    match BucketName::read(alloc, name.as_bytes()) {
        Ok(name) => Ok(Some(name)),
        Err(Code::InvalidBucketName) => Err(Fault::BadSetting),
        Err(_) => Err(Fault::OutOfMemory),
    }
}
