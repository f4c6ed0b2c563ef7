//! The tables of each checksum.
ghost use Rattle.s3_checksums.specs.Crc.{crc_32, crc_32c, crc_64_nvme};
ghost use Rattle.s3_checksums.specs.Tables.{IsTable};

mod crc_32;
mod crc_32c;
mod crc_64_nvme;

// The tables of CRC-32.
#[inline]
pub(crate) fn for_crc_32() -> &'static [u64; 2048]
    ensures { IsTable crc_32.generator result.now }
{
    &crc_32::ENTRIES
}

// The tables of CRC-32C.
#[inline]
pub(crate) fn for_crc_32c() -> &'static [u64; 2048]
    ensures { IsTable crc_32c.generator result.now }
{
    &crc_32c::ENTRIES
}

// The tables of CRC-64/NVME.
#[inline]
pub(crate) fn for_crc_64_nvme() -> &'static [u64; 2048]
    ensures { IsTable crc_64_nvme.generator result.now }
{
    &crc_64_nvme::ENTRIES
}
