//! What is read of a query, and what is signed of it.
ghost use Rattle.s3_rule_laws.specs.Queries.{SpelledTargetsAreRead};
ghost use Rattle.s3_rule_laws.specs.SignedQueries.{ParametersAreOrdered, ParametersAreSorted, SentOrderIsNotSigned, SignatureIsNotSigned, SignedTargetsHaveTheSameParameters};

/// A law, with nothing to run: a target with a query that is spelled right is read as what it spells. It is of targets with a query
/// alone. Each byte of a target's path, its names and its values stands for itself or is written as `%` and two digits; names and
/// values are cut at `=` and `&` that stand for themselves, and no other, and the parameters are told in the order in which they
/// stand.
pub fn targets_are_spelled()
    ensures { SpelledTargetsAreRead }
{}

/// A law, with nothing to run: the order in which parameters are signed is total, and only equal ones tie. Sorting keeps each pair
/// as often, in order; no other list is so. So the canonical query doesn't say in which order the parameters were sent, nor the
/// signature.
pub fn signed_queries_are_sorted()
    ensures order { ParametersAreOrdered }
    ensures sorted { ParametersAreSorted }
    ensures forgotten { SentOrderIsNotSigned }
    ensures unsigned { SignatureIsNotSigned }
{}

/// A law, with nothing to run: what is signed of a target fixes its path, and its parameters but for their order and the
/// signature. Two of one canonical URI have one path, and two of one canonical query have the same parameters but the signature,
/// each as often.
pub fn signed_targets_have_the_same_parameters()
    ensures { SignedTargetsHaveTheSameParameters }
{}
