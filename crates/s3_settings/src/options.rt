//! The options of the subcommands.

/// The options that each subcommand has, of which settings are made. `Setup::read` of `s3_settings` says which texts
/// are of their form.
#[derive(Clone, Copy)]
pub struct Options<'a> {
    /// The path of the keys file.
    pub keys: Option<&'a str>,
    /// The region that signatures name.
    pub region: &'a str,
    /// The least size of a part that is not the last one, in bytes.
    pub min_part: &'a str,
    /// The greatest size of a body, in bytes.
    pub body_limit: &'a str,
    /// The name of the bucket that is there from the start.
    pub bucket: Option<&'a str>,
    /// How documents are spelled: `json` or `s3`.
    pub dialect: &'a str,
    /// How records are kept: `map` or `sql`.
    pub records: Option<&'a str>,
}

/// The options of `s3d replay`.
#[derive(Clone, Copy)]
pub struct ReplayOptions<'a> {
    /// Those that each subcommand has.
    pub common: Options<'a>,
    /// The moment of every message, in seconds since 1970.
    pub moment: Option<&'a str>,
    /// Whether the input is event lines.
    pub events: bool,
    /// Whether the first faults of connections are told.
    pub faults: bool,
    /// The path of the folder that keeps the store.
    pub folder: Option<&'a str>,
}

/// The options of `s3d serve`.
#[derive(Clone, Copy)]
pub struct ServeOptions<'a> {
    /// Those that each subcommand has.
    pub common: Options<'a>,
    /// The address that it listens on, a host and a port.
    pub listen: Option<&'a str>,
    /// How many threads serve connections.
    pub workers: &'a str,
    /// How many connections it holds at a time.
    pub max_connections: &'a str,
    /// After how many connections it ends.
    pub connections: Option<&'a str>,
    /// How many times it serves so many connections.
    pub rounds: Option<&'a str>,
    /// The path of the file that tells of its messages, or `-` for the standard error.
    pub log: Option<&'a str>,
    /// The path of the folder that keeps the store.
    pub folder: Option<&'a str>,
}

/// The options of `s3d sign`.
#[derive(Drop)]
pub struct SignOptions<'a> {
    /// Those that each subcommand has.
    pub common: Options<'a>,
    /// When it is signed, in seconds since 1970.
    pub moment: Option<&'a str>,
    /// The id of the access key that signs.
    pub id: Option<&'a str>,
    /// The method of the request.
    pub method: Option<&'a str>,
    /// Its target.
    pub target: Option<&'a str>,
    /// The value of its host line.
    pub host: Option<&'a str>,
    /// The path of the file that has its body.
    pub body: Option<&'a str>,
    /// How many bytes of the body a signed chunk has, where it is sent in such.
    pub chunk: Option<&'a str>,
    /// For how many seconds it holds, where its target carries its signature.
    pub presign: Option<&'a str>,
    /// Whether its address is written, and nothing else of it.
    pub url: bool,
    /// Its further header lines, each as `NAME:VALUE`.
    pub headers: Vec<&'a str>,
}
