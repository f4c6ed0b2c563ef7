//! What lists tell of keys and of their versions.
ghost use Rattle.s3_catalogue_laws.specs.KeyLists.{KeysAreListed, MarkedKeysAreListed, ListedKeysHaveVersions};
ghost use Rattle.s3_catalogue_laws.specs.VersionLists.{VersionsAreListed, MarkersAreTold};

/// A law, with nothing to run: the list of a bucket's versions tells each version and each delete marker, with its key, its id
/// and its moment, and nothing else. The current one of its key, and no other, is told as the latest. A read by the id of a
/// version that is told finds the facts that are told; there are none exactly where the version is a delete marker, and
/// exactly where that read is refused as `MethodNotAllowed`.
pub fn versions_are_listed<B>()
    ensures listed { VersionsAreListed B }
    ensures markers { MarkersAreTold B }
{}

/// A law, with nothing to run: the list of a bucket's keys tells a key with facts exactly where a read of it without an id
/// gives a version, and these facts are that version's. It tells a key without facts exactly where that read meets a delete
/// marker, and no key that has no version.
pub fn keys_are_listed<B>()
    ensures listed { KeysAreListed B }
    ensures marked { MarkedKeysAreListed B }
    ensures versions { ListedKeysHaveVersions B }
{}
