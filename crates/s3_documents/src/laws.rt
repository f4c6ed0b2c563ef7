//! What is known of all documents: laws, with nothing to run.
ghost use Rattle.s3_documents.specs.Laws.{TreesAreJson, TimestampsSpellStamps, XmlIsReadBack};

use s3_calendar::stamps_of_a_moment;
use s3_xml::{contents_fit, documents_are_read_back};

/// A law: a document is what `serde_json` prints of its tree, and a moment in it is the stamp that names it, spelled out.
pub fn documents_are_one()
    ensures json { TreesAreJson }
    ensures timestamps { TimestampsSpellStamps }
{
    stamps_of_a_moment();
}

/// A law: in XML a document is read back as what it tells.
pub fn xml_is_read_back()
    ensures { XmlIsReadBack }
{
    contents_fit();
    documents_are_read_back();
}
