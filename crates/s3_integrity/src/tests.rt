//! The values that the standards publish.
use crate::{Checksum, ChecksumAlgorithm, ChecksumHasher};

// Whether the checksum of a message is told by this text.
fn is_told(hasher: &ChecksumHasher, text: &[u8]) -> bool {
    hasher.sum().text().as_bytes() == text
}

// Whether "123456789", which comes in two pieces, has the checksum that the value of the header of this name says, and is told
// so; `None` where no kind's header has the name, or the value can't be read.
fn is_met(name: &[u8], text: &[u8]) -> Option<bool> {
    let algorithm = ChecksumAlgorithm::named(ChecksumAlgorithm::named(name)?.header())?;
    let sum = Checksum::read(algorithm, text)?;
    let mut hasher = ChecksumHasher::new(sum.algorithm());
    hasher.update(b"1234");
    hasher.update(b"56789");
    Some(hasher.is_met(&sum) && is_told(&hasher, text))
}

#[test]
fn published_values(rt: HostRuntime) {
    let cases: [(&[u8], &[u8], Option<bool>); 9] = [
        (b"x-amz-checksum-crc32", b"y/Q5Jg==", Some(true)),
        (b"x-amz-checksum-crc32c", b"4waSgw==", Some(true)),
        (b"X-Amz-Checksum-Crc64nvme", b"rosUhgp5mIg=", Some(true)),
        (
            b"x-amz-checksum-sha1",
            b"98O8HYCOBHMq32eZZczDTKeuNEE=",
            Some(true),
        ),
        (
            b"x-amz-checksum-SHA256",
            b"FeKw08M4keuw8e9gnsQZQgwg4yDOlMZfvIwzEkSOsiU=",
            Some(true),
        ),
        (b"x-amz-checksum-crc32", b"y/Q5Jw==", Some(false)),
        (b"x-amz-checksum-crc32", b"y/Q5Jg", None),
        (
            b"x-amz-checksum-sha1",
            b"FeKw08M4keuw8e9gnsQZQgwg4yDOlMZfvIwzEkSOsiU=",
            None,
        ),
        (b"x-amz-checksum-md5", b"y/Q5Jg==", None),
    ];
    for (name, text, met) in cases {
        assert!(rt; is_met(name, text) == met);
    }
}
