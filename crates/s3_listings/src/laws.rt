//! Laws of lists: what users may rely on, with nothing to run.
ghost use Rattle.s3_listings.specs.Laws.{ItemsRise, ItemsAreOfKeys, KeysAreToldOnce, ListedAreKeys, ListedAreRead, PagesJoin, PlainUploadsAreRows, PlainVersionsAreRows, UploadsAreToldOnce, VersionsAreToldOnce, VersionPagesJoin, UploadPagesJoin, PartPagesJoin};

use s3_records::{keys_rise, uploads_are_listed};

/// A law, with nothing to run: the items of a list are distinct and stand in the order of bytes, and they are those that keys
/// are told as and that stand behind the token; each of them is there once, however many keys it is told of.
pub fn items_are_distinct()
    ensures order { ItemsRise }
    ensures keys { ItemsAreOfKeys }
    ensures once { KeysAreToldOnce }
{}

/// A law, with nothing to run: where neither a delimiter nor a place to start at is given, the list has exactly the keys with
/// the prefix whose current version is an object; in a bucket these are the keys that an unconditional read finds, with the
/// same facts.
pub fn listed_keys_are_read<B>()
    ensures rows { ListedAreKeys }
    ensures read { ListedAreRead B }
{
    keys_rise::<B>();
}

/// A law, with nothing to run: where nothing changes between them, the pages of a list of objects joined by their tokens are
/// the whole list, whatever they started after, if a page may have an item at all.
pub fn pages_join()
    ensures { PagesJoin }
{}

/// A law, with nothing to run: so are the pages of a list of versions, joined by their markers.
pub fn version_pages_join<B>()
    ensures { VersionPagesJoin B }
{}

/// A law, with nothing to run: so are the pages of a list of uploads.
pub fn upload_pages_join<B>()
    ensures { UploadPagesJoin B }
{
    uploads_are_listed::<B>();
}

/// A law, with nothing to run: so are the pages of a list of an upload's parts, whose numbers rise.
pub fn part_pages_join<B>()
    ensures { PartPagesJoin B }
{}

/// A law, with nothing to run: where no delimiter is given, a list of versions or of uploads tells each row by itself.
pub fn plain_lists_are_rows<B>()
    ensures versions { PlainVersionsAreRows B }
    ensures uploads { PlainUploadsAreRows B }
{}

/// A law, with nothing to run: in a list of versions or of uploads a row that has no common prefix is told by itself, as often as
/// it stands there; the common prefix of others is told once, where it stands behind the marker, and no other one is told.
pub fn rows_are_told_once<B>()
    ensures versions { VersionsAreToldOnce B }
    ensures uploads { UploadsAreToldOnce B }
{
    uploads_are_listed::<B>();
}
