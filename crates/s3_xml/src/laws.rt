//! What is known of all documents: laws, with nothing to run.
ghost use Rattle.s3_xml.specs.Laws.{DocumentsAreReadBack, ElementsAreReadBack, DocumentsAreTexts, ContentsFit};
ghost use Rattle.s3_xml.specs.Writer.{Bounds};

/// A law: how many bytes the parts of a document have, for those who take room for them first.
pub fn bounds_of_texts()
    ensures { Bounds }
{}

/// A law: the text of a document is read as what it tells, and its elements are found in it.
pub fn documents_are_read_back()
    ensures events { DocumentsAreReadBack }
    ensures elements { ElementsAreReadBack }
{}

/// A law: what a document may tell, put together from elements and texts.
pub fn contents_fit()
    ensures { ContentsFit }
{}

/// A law: the text of a document has only characters that XML has.
pub fn documents_are_texts()
    ensures { DocumentsAreTexts }
{}
