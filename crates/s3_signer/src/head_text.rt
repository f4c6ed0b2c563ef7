//! The text of a head.

ghost use Rattle.std.specs.Prelude.{◌≡◌, ◌++◌, IfOk};
ghost use Rattle.std.specs.List.{flat_map};
ghost use Rattle.httparse.specs.Grammar.{print_field, print_request};
ghost use Rattle.s3_signer.specs.Line.{pair, pairs};
ghost use Rattle.s3_signer.specs.Request.{field_of, head_of};

use crate::line::Line;
use std::alloc::{AllocError, Global};

// Writes the lines, one after the other.
fn print_lines(lines: &[Line], text: &mut Vec<u8>) -> Result<(), AllocError>
    ensures { IfOk result (λ _. text.new.items
        ≡ text.old.items ++ flat_map (λ line. print_field (field_of line)) (pairs lines.now)) }
{
    for line in lines {
        line.print(text)?;
    }
    Ok(())
}

// The head of these lines.
#[tactic(auto, unfolding(httparse::specs::Grammar::print_request))]
pub(crate) fn head_text(
    alloc: Global,
    method: &[u8],
    target: &[u8],
    lines: &[Line],
) -> Result<Vec<u8>, AllocError>
    ensures { IfOk result (λ text. text.items
        ≡ print_request (head_of method.now target.now (pairs lines.now))) }
{
    let mut text = Vec::from_slice(alloc, method)?;
    text.push(b' ')?;
    text.extend_from_slice(target)?;
    text.extend_from_slice(b" HTTP/1.1\r\n")?;
    print_lines(lines, &mut text)?;
    text.extend_from_slice(b"\r\n")?;
    Ok(text)
}
