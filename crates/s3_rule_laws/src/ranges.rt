//! What ranges select, and when.
ghost use Rattle.s3_rule_laws.specs.Ranges.{RangesAreRead, OutsideHasNoByte, RangesSelectParts, RangesSelectNothingElse, LongSuffixesAreAll, LongRangesEnd, PreconditionsComeFirst, OutsideIsLast, PartsAreLast};

/// A law, with nothing to run: a range that is read has numbers below 10^18, and a first position that isn't after the last. It
/// is outside an object exactly where it has no byte of it, and else selects a part; never is all shown without its positions,
/// or told as unchanged. As many bytes at the end as the object has, or more, are all, and a last position behind the end stands
/// for the last byte.
pub fn ranges_select_bytes()
    ensures read { RangesAreRead }
    ensures outside { OutsideHasNoByte }
    ensures parts { RangesSelectParts }
    ensures nothing_else { RangesSelectNothingElse }
    ensures suffixes { LongSuffixesAreAll }
    ensures ends { LongRangesEnd }
{}

/// A law, with nothing to run: a precondition that decides does so whatever range is asked for. A read is answered as outside,
/// which is `InvalidRange`, exactly where it would be shown all without its range, and this has no byte of the object; and with
/// a part exactly where it would be shown all, and its range selects this part.
pub fn ranges_come_last()
    ensures preconditions { PreconditionsComeFirst }
    ensures outside { OutsideIsLast }
    ensures parts { PartsAreLast }
{}
