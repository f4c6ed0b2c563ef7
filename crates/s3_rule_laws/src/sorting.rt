//! What sorting gives.
ghost use Rattle.s3_rule_laws.specs.Sorting.{SortingKeepsElements, SortingMakesOrder, SortingKeepsTies, OneListIsStable, OneListIsInOrder, OrderBeforeIsForgotten, BytesOrderTexts, TextsAreSorted, DistinctTextsRise};

/// A law, with nothing to run: sorting a list gives its elements, each as often as it was there. By a total order no element is
/// greater than one behind it, and those that tie stand as they stood; no other list is so. Where only equal elements tie, no
/// other list in order has the same elements, and it doesn't matter in which order they came.
pub fn lists_are_sorted<X>()
    ensures elements { SortingKeepsElements X }
    ensures order { SortingMakesOrder X }
    ensures ties { SortingKeepsTies X }
    ensures stable { OneListIsStable X }
    ensures once { OneListIsInOrder X }
    ensures forgotten { OrderBeforeIsForgotten X }
{}

/// A law, with nothing to run: the order of bytes is total, and only equal texts tie. So a list of texts is what sorting another
/// gives exactly where it has the same texts, each as often, and is in order. Texts rise exactly where they are in order and
/// none stands there twice.
pub fn texts_are_sorted()
    ensures bytes { BytesOrderTexts }
    ensures sorted { TextsAreSorted }
    ensures distinct { DistinctTextsRise }
{}
