//! What the checksums are in the standards' words, as a law over their definition.
ghost use Rattle.s3_checksums.specs.Crc.{crc_32, crc_32c, crc_64_nvme};
ghost use Rattle.s3_checksums.specs.Division.{AreRemainders};

/// Each checksum is the remainder of a division of polynomials: the message's by the standard's generator.
pub fn checksums_are_remainders()
    ensures crc_32 { AreRemainders crc_32 }
    ensures crc_32c { AreRemainders crc_32c }
    ensures crc_64_nvme { AreRemainders crc_64_nvme }
{}
