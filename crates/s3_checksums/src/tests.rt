//! The values that the standards publish.
use crate::{Crc32, Crc32c, Crc64Nvme};
use std::test::Fail;

// The three checksums of a message in two pieces.
fn checksums(first: &[u8], second: &[u8]) -> (u32, u32, u64) {
    let mut crc_32 = Crc32::new();
    let mut crc_32c = Crc32c::new();
    let mut crc_64 = Crc64Nvme::new();
    crc_32.update(first);
    crc_32.update(second);
    crc_32c.update(first);
    crc_32c.update(second);
    crc_64.update(first);
    crc_64.update(second);
    (crc_32.finish(), crc_32c.finish(), crc_64.finish())
}

#[test]
fn published_values(rt: HostRuntime) -> Result<(), Fail> {
    let none: &[u8] = &[];
    let cases: [(&[u8], &[u8]); 3] = [
        (b"123456789", none),
        (b"1", b"23456789"),
        (b"12345678", b"9"),
    ];
    for (first, second) in cases {
        assert_eq!(rt;
            checksums(first, second),
            (0xCBF4_3926, 0xE306_9283, 0xAE8B_1486_0A79_9888)
        );
    }
    Ok(())
}
