//! Behind what lists of objects and of parts begin.
ghost use Rattle.s3_catalogue_laws.specs.ObjectLists.{ListsBeginBehind, TokensAreNotTold, StartsAreNotTold, PartsBeginBehind};

use s3_listings::items_are_distinct;
use s3_records::keys_rise;

/// A law, with nothing to run: a list of objects tells just the keys with the prefix that stand behind the key that it is to
/// start after, each by itself or rolled up, and of these items those that stand behind the token. It tells neither that key nor
/// the token again. A list of parts tells just those whose numbers are above the marker.
pub fn lists_begin_behind<B>()
    ensures items { ListsBeginBehind B }
    ensures tokens { TokensAreNotTold B }
    ensures starts { StartsAreNotTold B }
    ensures parts { PartsBeginBehind B }
{
    items_are_distinct();
    keys_rise::<B>();
}
