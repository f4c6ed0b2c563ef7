//! Laws of the spellings, with nothing to run.
ghost use Rattle.s3_columns.specs.Laws.{PairsAreReadAgain, PairsAreSpelledAgain, TypeIsFound, MetadataIsFound, NumbersAreFound, IdIsFound, IdsAreToldApart, VersioningIsFound};

/// A law, with nothing to run: pairs whose lengths fit are read again as they were spelled, and pairs that are read spell the
/// same bytes again.
pub fn pairs_are_read_again()
    ensures read { PairsAreReadAgain }
    ensures spelled { PairsAreSpelledAgain }
{}

/// A law, with nothing to run: in what is kept of a media type and metadata both are found.
pub fn attributes_are_found()
    ensures content_type { TypeIsFound }
    ensures metadata { MetadataIsFound }
{}

/// A law, with nothing to run: numbers of 64 bits are found in the bytes that they are written as.
pub fn numbers_are_found()
    ensures { NumbersAreFound }
{}

/// A law, with nothing to run: an id is found in its column, and no two ids have one.
pub fn ids_are_found()
    ensures found { IdIsFound }
    ensures apart { IdsAreToldApart }
{}

/// A law, with nothing to run: a versioning is found in its column.
pub fn versioning_is_found()
    ensures { VersioningIsFound }
{}
