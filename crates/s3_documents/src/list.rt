//! Lists whose rows stand under one name, with fields in front of them and behind them.
ghost use Rattle.std.specs.Prelude.{◌≡◌, [], map, OnOk};
ghost use Rattle.s3_documents.specs.Tree.{rows_between};
ghost use Rattle.s3_documents.specs.Printed.{branches_tokens, begun, fields_of, room_of, TakesRoom, IsRoomFor};

use crate::printer::{Field, Printer, Row};
use crate::room::{Bounded, room_of_fields, room_of_rows};
use std::alloc::AllocError;

/// Prints the rows of a list under this name, with these fields in front of them and behind them.
#[tactic(auto, using(crate::proofs::RowLemmas::rows_between_room))]
pub(crate) fn print_list<R: Row>(
    printer: &mut Printer,
    before: &[Field<'_>],
    name: &str,
    list: &[R],
    behind: &[Field<'_>],
) -> Result<(), AllocError>
    ensures tokens { OnOk result (printer.old.tokens ≡ begun []
        → printer.new.tokens ≡ begun (rows_between (fields_of before.now) name.now (map R.told list.now) (fields_of behind.now))) }
    ensures room { TakesRoom result printer.old.spare printer.new.spare
        (branches_tokens (rows_between (fields_of before.now) name.now (map R.told list.now) (fields_of behind.now))) }
{
    printer.fields(before)?;
    printer.rows(name, list)?;
    printer.fields(behind)?;
    Ok(())
}

/// The room for that.
#[tactic(auto, using(crate::proofs::RowLemmas::rows_between_room, crate::proofs::RoomLemmas::leaves_room))]
pub(crate) fn room_of_list<R: Bounded>(
    before: &[Field<'_>],
    name: &str,
    list: &[R],
    behind: &[Field<'_>],
) -> usize
    ensures { IsRoomFor result
        (room_of (branches_tokens (rows_between (fields_of before.now) name.now (map R.told list.now) (fields_of behind.now)))) }
{
    room_of_fields(before)
        .saturating_add(room_of_rows(name, list))
        .saturating_add(room_of_fields(behind))
}
