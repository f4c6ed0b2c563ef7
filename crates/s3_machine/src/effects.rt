//! Whether an entry may have changed anything.
ghost use Rattle.std.specs.Prelude.{◌≡◌};
ghost use Rattle.s3_machine.specs.Effects.{is_refused, only_reads, only_reads_bucket, only_reads_key, only_reads_upload};

use crate::command::{BucketCommand, Command, KeyCommand, Outcome, UploadCommand};

impl Command {
    /// Whether it only reads, so that its step leaves the state as it was, whatever it comes to.
    pub fn only_reads(&self) -> bool
        ensures { result ≡ only_reads self.now }
    {
        match self {
            Command::ListBuckets => true,
            Command::Bucket { name: _, asked } => asked.only_reads(),
            Command::Key {
                bucket: _,
                key: _,
                asked,
            } => asked.only_reads(),
            Command::Upload {
                bucket: _,
                key: _,
                id: _,
                asked,
            } => asked.only_reads(),
            Command::DeleteObjects {
                bucket: _,
                deletion: _,
            } => false,
        }
    }
}

impl BucketCommand {
    fn only_reads(&self) -> bool
        ensures { result ≡ only_reads_bucket self.now }
    {
        !matches!(
            self,
            BucketCommand::Create
                | BucketCommand::Delete
                | BucketCommand::PutVersioning { status: _ }
        )
    }
}

impl KeyCommand {
    fn only_reads(&self) -> bool
        ensures { result ≡ only_reads_key self.now }
    {
        matches!(
            self,
            KeyCommand::Read(_) | KeyCommand::ReadTags { version: _ }
        )
    }
}

impl UploadCommand {
    fn only_reads(&self) -> bool
        ensures { result ≡ only_reads_upload self.now }
    {
        matches!(self, UploadCommand::ListParts(_))
    }
}

impl Outcome {
    /// Whether the machine refused, and is as it was.
    pub fn is_refused(&self) -> bool
        ensures { result ≡ is_refused self.now }
    {
        matches!(
            self,
            Outcome::OutOfRange { size: _ }
                | Outcome::Refused {
                    code: _,
                    is_delete_marker: _,
                }
        )
    }
}
