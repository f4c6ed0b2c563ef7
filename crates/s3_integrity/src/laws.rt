//! Laws of the definitions: there is nothing to run.
ghost use Rattle.s3_integrity.specs.Laws.{ChecksumsAreEncoded, ChecksumsAreMet, SumsAreRead};

/// A law: a checksum is found in the base64 of its bytes and in no other text; a message has it exactly if that text is the
/// base64 of the message's checksum; and each such text is read. It takes no time.
pub fn checksums_are_encoded()
    ensures encoded { ChecksumsAreEncoded }
    ensures met { ChecksumsAreMet }
    ensures read { SumsAreRead }
{}
