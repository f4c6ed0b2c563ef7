//! Moments, as documents write them.
ghost use Rattle.std.specs.Prelude.{◌≡◌, true, IsUtf8, length};
ghost use Rattle.std.specs.List.{list_all};
ghost use Rattle.s3_documents.specs.Xml.{is_plain};
ghost use Rattle.json.specs.Print.{escape};
ghost use Rattle.s3_documents.specs.Timestamp.{timestamp, spelled_out};

use s3_calendar::{Moment, Stamp, stamps_of_a_moment};

/// The moment as documents write it, as `2013-05-24T00:00:00.000Z`.
pub(crate) fn timestamp(moment: Moment) -> [u8; 24]
    ensures value { result ≡ timestamp moment }
    ensures utf8 { IsUtf8 result }
    ensures plain { escape (timestamp moment) ≡ timestamp moment }
    ensures characters { list_all is_plain (timestamp moment) ≡ true }
{
    let _bound = moment.seconds();
    stamps_of_a_moment();
    let stamp = Stamp::at(moment);
    spelled(stamp.text())
}

// The date and the time of day of a stamp's text.
fn spelled(t: &[u8]) -> [u8; 24]
    requires { length t.now ≡ 16 }
    ensures { result ≡ spelled_out t.now }
{
    [
        t[0], t[1], t[2], t[3], b'-', t[4], t[5], b'-', t[6], t[7], b'T', t[9], t[10], b':', t[11],
        t[12], b':', t[13], t[14], b'.', b'0', b'0', b'0', b'Z',
    ]
}
