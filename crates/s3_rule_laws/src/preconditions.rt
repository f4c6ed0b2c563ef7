//! The order of preconditions, and what each decides.
ghost use Rattle.s3_rule_laws.specs.Preconditions.{IfMatchDecides, UnmodifiedSinceDecides, IfNoneMatchDecides, ModifiedSinceDecides, RangeDecides, SameSecondIsMet, SameSecondIsUnchanged, LaterDatesAreMet, LaterDatesAreUnchanged, DatesAreOpposite};

/// A law, with nothing to run: a read is judged in the standard's order. If-Match decides where it is there, whatever
/// If-Unmodified-Since says, and else this; then If-None-Match where it is there, whatever If-Modified-Since says, and else this;
/// last the range.
pub fn preconditions_have_an_order()
    ensures if_match { IfMatchDecides }
    ensures unmodified_since { UnmodifiedSinceDecides }
    ensures if_none_match { IfNoneMatchDecides }
    ensures modified_since { ModifiedSinceDecides }
    ensures range { RangeDecides }
{}

/// A law, with nothing to run: a version of the very second isn't refused by If-Unmodified-Since, and is unchanged by
/// If-Modified-Since. What isn't refused by a date is answered alike by a later one, and what is unchanged by a date is so by a
/// later one. A date alone refuses in the first header exactly where the version is shown in the second.
pub fn dates_decide()
    ensures same_met { SameSecondIsMet }
    ensures same_unchanged { SameSecondIsUnchanged }
    ensures later_met { LaterDatesAreMet }
    ensures later_unchanged { LaterDatesAreUnchanged }
    ensures opposite { DatesAreOpposite }
{}
