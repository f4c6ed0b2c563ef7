//! What the tables are given, and what they answer. The answers are those of Python's `sqlite3`, after the same statements over the
//! same tables: for each row its columns with `|` between them, and `;` at its end.

use crate::asking::{Asked, Question};
use crate::giving::Given;
use s3_stored_rows::TableName;

/// Rows of each table.
pub(crate) static ADDED: [Given; 18] = [
    Given::Bucket(1, b"pail", 1_369_353_600, 1),
    Given::Bucket(2, b"b.in", 0, 0),
    Given::Bucket(5, b"pail-2", i64::MAX, 2),
    Given::Version(1, b"pail", b"a", 1, 1, 100, 0, b"tag1", b"kept1", 3, b"one"),
    Given::Version(2, b"pail", b"a", 4, 4, 101, 1, b"", b"", 0, b""),
    Given::Version(
        3,
        b"pail",
        b"a",
        9,
        -1,
        i64::MIN,
        0,
        b"tag3",
        b"kept3",
        i64::MAX,
        b"three",
    ),
    Given::Version(
        4, b"pail", b"a/b", 2, 2, 103, 0, b"tag4", b"kept4", 4, b"four",
    ),
    Given::Version(
        5, b"pail", b"Z", 3, 3, 104, 0, b"tag5", b"kept5", 5, b"five",
    ),
    Given::Version(
        6, b"pail", b"\xff", 5, 5, 105, 0, b"tag6", b"kept6", 6, b"six",
    ),
    Given::Version(
        7, b"pail-2", b"a", 6, -1, 106, 0, b"tag7", b"kept7", 7, b"seven",
    ),
    Given::Upload(1, b"pail", b"a", 7, 110, b"kept"),
    Given::Upload(2, b"pail", b"a", 3, 111, b""),
    Given::Upload(3, b"pail", b"Z", 5, 112, b"kept"),
    Given::Upload(4, b"b.in", b"a", 4, 113, b"kept"),
    Given::Part(1, 1, 2, b"digest1", 120, 21, b"one"),
    Given::Part(2, 1, 1, b"digest2", 121, 22, b"two"),
    Given::Part(3, 2, 1, b"digest3", 122, 23, b""),
    Given::Part(5, 1, 10_000, b"digest5", 123, 24, b"five"),
];

/// Lists whose last change is refused after these rows, and why.
pub(crate) static REFUSED: [(&str, &[Given]); 3] = [
    (
        "a part that is there",
        &[
            Given::Bucket(9, b"new", 1, 1),
            Given::DropRow(TableName::Versions, 1),
            Given::DropRow(TableName::Uploads, 1),
            Given::DropRow(TableName::Parts, 2),
            Given::Store(2, 1, 50),
            Given::Part(9, 1, 2, b"d", 1, 1, b""),
        ],
    ),
    (
        "an id that is there",
        &[
            Given::DropRow(TableName::Buckets, 1),
            Given::Version(9, b"pail", b"a", 10, -1, 1, 0, b"", b"", 0, b""),
        ],
    ),
    (
        "a row that is there",
        &[
            Given::DropRow(TableName::Store, 1),
            Given::Upload(4, b"pail", b"new", 1, 1, b""),
        ],
    ),
];

/// Rows that go, and one that is not there.
pub(crate) static DROPPED: [Given; 7] = [
    Given::DropRow(TableName::Versions, 3),
    Given::DropRow(TableName::Buckets, 2),
    Given::DropRow(TableName::Uploads, 2),
    Given::DropRow(TableName::Uploads, 99),
    Given::DropRow(TableName::Parts, 1),
    Given::Store(2, 1, 41),
    Given::DropRow(TableName::Store, 1),
];

/// What the tables answer after the first list.
pub(crate) static BEFORE: [Question; 30] = [
    (Asked::Bucket(b"pail"), b"1|pail|1369353600|1;"),
    (Asked::Bucket(b"none"), b""),
    (
        Asked::Buckets,
        b"2|b.in|0|0;1|pail|1369353600|1;5|pail-2|9223372036854775807|2;",
    ),
    (Asked::Store, b"1|1|40;"),
    (
        Asked::Newest(b"pail", b"a"),
        b"3|pail|a|9|-1|-9223372036854775808|0|tag3|kept3|9223372036854775807|three;",
    ),
    (Asked::Newest(b"pail", b"b"), b""),
    (
        Asked::Version(b"pail", b"a", 4),
        b"2|pail|a|4|4|101|1|||0|;",
    ),
    (Asked::Version(b"pail", b"a", 5), b""),
    (
        Asked::Version(b"pail-2", b"a", -1),
        b"7|pail-2|a|6|-1|106|0|tag7|kept7|7|seven;",
    ),
    (
        Asked::VersionsBelow(b"pail", b"a", 9, u32::MAX),
        b"2|pail|a|4|4|101|1|||0|;1|pail|a|1|1|100|0|tag1|kept1|3|one;",
    ),
    (
        Asked::VersionsBelow(b"pail", b"a", i64::MAX, 1),
        b"3|pail|a|9|-1|-9223372036854775808|0|tag3|kept3|9223372036854775807|three;",
    ),
    (
        Asked::VersionsFrom(b"pail", b"a", u32::MAX),
        b"3|pail|a|9|-1|-9223372036854775808|0|tag3|kept3|9223372036854775807|three;2|pail|a|4|4|101|1|||0|;1|pail|a|1|1|100|0|tag1|kept1|3|one;4|pail|a/b|2|2|103|0|tag4|kept4|4|four;6|pail|\xff|5|5|105|0|tag6|kept6|6|six;",
    ),
    (
        Asked::VersionsFrom(b"pail", b"", 2),
        b"5|pail|Z|3|3|104|0|tag5|kept5|5|five;3|pail|a|9|-1|-9223372036854775808|0|tag3|kept3|9223372036854775807|three;",
    ),
    (
        Asked::VersionsBehind(b"pail", b"a", 1),
        b"4|pail|a/b|2|2|103|0|tag4|kept4|4|four;",
    ),
    (Asked::VersionsBehind(b"pail", b"a", 0), b""),
    (Asked::HasVersions(b"pail-2"), b"1;"),
    (Asked::HasVersions(b"b.in"), b"0;"),
    (Asked::Upload(b"pail", b"a", 3), b"2|pail|a|3|111|;"),
    (Asked::Upload(b"pail", b"a", 4), b""),
    (
        Asked::UploadsFrom(b"pail", b"a", u32::MAX),
        b"2|pail|a|3|111|;1|pail|a|7|110|kept;",
    ),
    (
        Asked::UploadsFrom(b"pail", b"", 2),
        b"3|pail|Z|5|112|kept;2|pail|a|3|111|;",
    ),
    (Asked::UploadsBehind(b"pail", b"Z", 1), b"2|pail|a|3|111|;"),
    (
        Asked::UploadsAbove(b"pail", b"a", 3, u32::MAX),
        b"1|pail|a|7|110|kept;",
    ),
    (
        Asked::UploadsAbove(b"pail", b"a", i64::MIN, 1),
        b"2|pail|a|3|111|;",
    ),
    (Asked::HasUploads(b"b.in"), b"1;"),
    (Asked::HasUploads(b"pail-2"), b"0;"),
    (Asked::Part(1, 2), b"1|1|2|digest1|120|21|one;"),
    (Asked::Part(2, 2), b""),
    (
        Asked::PartsAbove(1, 1, u32::MAX),
        b"1|1|2|digest1|120|21|one;5|1|10000|digest5|123|24|five;",
    ),
    (
        Asked::PartsAbove(1, 0, 2),
        b"2|1|1|digest2|121|22|two;1|1|2|digest1|120|21|one;",
    ),
];

/// And after the last.
pub(crate) static AFTER: [Question; 6] = [
    (
        Asked::Buckets,
        b"1|pail|1369353600|1;5|pail-2|9223372036854775807|2;",
    ),
    (Asked::Store, b"2|1|41;"),
    (Asked::Newest(b"pail", b"a"), b"2|pail|a|4|4|101|1|||0|;"),
    (
        Asked::VersionsFrom(b"pail", b"a", 2),
        b"2|pail|a|4|4|101|1|||0|;1|pail|a|1|1|100|0|tag1|kept1|3|one;",
    ),
    (
        Asked::UploadsFrom(b"pail", b"", u32::MAX),
        b"3|pail|Z|5|112|kept;1|pail|a|7|110|kept;",
    ),
    (
        Asked::PartsAbove(1, 0, u32::MAX),
        b"2|1|1|digest2|121|22|two;5|1|10000|digest5|123|24|five;",
    ),
];
