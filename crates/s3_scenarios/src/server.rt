//! The server of an example, which the example's name says.

use s3_config::Config;
use s3_keepers::{FolderKeeper, Opened};
use s3_names::BucketName;
use s3_records::MapRecords;
use s3_settings::{Files, Options, Setup, configure};
use s3_storage::StorageFault;
use std::alloc::Global;
use std::{fs, io};

// The bucket that is there from the start, where the name of an example says no other.
const BUCKET: &str = "pail";

/// The files of the system.
#[derive(Clone, Copy)]
pub(crate) struct SystemFiles<'a>(pub(crate) &'a HostRuntime);

impl Files for SystemFiles<'_> {
    fn read(&self, _alloc: Global, path: &str) -> io::Result<Vec<u8>> {
        fs::read(self.0, path)
    }
}

/// No folder keeps a store: examples begin in memory.
#[derive(Clone, Copy)]
pub(crate) struct NoFolders;

impl FolderKeeper for NoFolders {
    type Kept = MapRecords;

    ghost finds = { λ _ _ _. ⊥ };

    fn open(
        &mut self,
        _alloc: Global,
        _path: &str,
        _buckets: &[BucketName],
    ) -> Result<Opened<MapRecords>, StorageFault> {
        Err(StorageFault::NotAStore)
    }
}

/// What is asked of a server: the bucket that is there from the start, and the dialect of its documents.
#[derive(Clone, Copy)]
pub(crate) struct Server<'a> {
    pub(crate) bucket: &'a str,
    pub(crate) dialect: &'a str,
}

/// The server of an example with this name: its documents are XML where the name ends with `.s3`, and else JSON. The bucket
/// stands behind a dot before that; where there is none, it is `pail`.
pub(crate) fn server_of(name: &str) -> Server<'_> {
    let (front, dialect) = match name.strip_suffix(".s3") {
        Some(front) => (front, "s3"),
        None => (name, "json"),
    };
    let (_, bucket) = front.split_once('.').unwrap_or((front, BUCKET));
    Server { bucket, dialect }
}

/// The settings of a server, with the access key of the file `keys`; `None` where there is no such server, or no memory.
pub(crate) fn config(rt: &HostRuntime, server: Server<'_>) -> Option<Config> {
    let options = Options {
        keys: Some("keys"),
        region: "us-east-1",
        min_part: "5",
        body_limit: "67108864",
        bucket: Some(server.bucket),
        dialect: server.dialect,
        records: None,
    };
    let setup = Setup::read(rt.alloc(), &options).ok()?;
    configure(rt.alloc(), setup, &SystemFiles(rt)).ok()
}
