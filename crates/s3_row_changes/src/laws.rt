//! Laws of changes of rows, with nothing to run.
ghost use Rattle.s3_row_changes.specs.Trading.{VersionPutsTrade, VersionDropsTrade, PartPutsTrade, UploadAddsTrade, UploadDropsTrade};

/// A law, with nothing to run: after a change of rows the numbers of the rows that went are named once less, and those of the rows
/// that came once more.
pub fn changes_trade_numbers()
    ensures version_puts { VersionPutsTrade }
    ensures version_drops { VersionDropsTrade }
    ensures part_puts { PartPutsTrade }
    ensures upload_adds { UploadAddsTrade }
    ensures upload_drops { UploadDropsTrade }
{}
