//! The order of the members of documents.
ghost use Rattle.s3_rule_laws.specs.Members.{MembersRise};

/// A law, with nothing to run: the members of each document that is told as JSON, and those of its rows, stand in the order of
/// their names' bytes, and none twice, whichever of them are told.
pub fn members_rise()
    ensures { MembersRise }
{}
