//! The standard's examples.
ghost use Rattle.s3_rule_laws.specs.Examples.{DatesAreShown, TagsAreCompared, RangesAreTaken};

/// A law, with nothing to run: the standard's examples of dates, of lists of tags and their comparison, and of ranges are read as
/// it says.
pub fn standard_examples_hold()
    ensures dates { DatesAreShown }
    ensures tags { TagsAreCompared }
    ensures ranges { RangesAreTaken }
{}
