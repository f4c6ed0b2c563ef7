//! What lists of entity tags match.
ghost use Rattle.s3_rule_laws.specs.TagLists.{ListsNameTags, AnyTagMatches, OwnTagIsMet, OtherTagsAreRefused, OwnTagIsUnchanged, OtherTagsAreShown};

/// A law, with nothing to run: a list of tags as the standard spells it, each in quotes and strong or weak, matches a version
/// exactly where the version's tag is one of them, if the tags are of the characters that tags have here. `*` matches each
/// version.
pub fn tag_lists_match()
    ensures named { ListsNameTags }
    ensures any { AnyTagMatches }
{}

/// A law, with nothing to run: a read that names the version's own tag in If-Match isn't refused, and one that names other tags
/// alone is. One that names its own tag in If-None-Match is answered as unchanged unless it is refused, and one that names other
/// tags alone never is, whatever the dates say.
pub fn tags_decide()
    ensures own_met { OwnTagIsMet }
    ensures others_refused { OtherTagsAreRefused }
    ensures own_unchanged { OwnTagIsUnchanged }
    ensures others_shown { OtherTagsAreShown }
{}
