//! Event lines are read.

ghost use Rattle.std.specs.Prelude.{◌≡◌, ℕ, List, true, false, IfOk, IfErr, MatchOption, is_some};
ghost use Rattle.s3_text.specs.Lines.{lines_of};
ghost use Rattle.s3_events.specs.Lines.{Said, line_of};
ghost use Rattle.s3_events.specs.Script.{IsScriptOf, IsEventsFault};
ghost use Rattle.s3_events.specs.Reading.{Collects, may_follow, meaning};

use crate::checked::Checked;
use crate::error::EventsError;
use crate::script::Script;
use s3_text::next_line;
use std::alloc::Global;

/// The script that a text of event lines spells: one event a line, in fields with one space between each two.
/// A line is `moments C T ..`, `piece C HEX`, `end C` or `turn C`, where C is the number of a connection, under 64,
/// T a moment in seconds since 1970, both in 1 to 12 decimal digits, and HEX at least one byte in digits of either
/// case; `moments C` comes before every other line of C, and once. Lines end in LF, which the last one may lack; an
/// empty line is bad. `BadLine` has the number of the first bad line, from 1; memory runs out only where the first
/// line is right. Reads each line a few times, and looks through all events for each line of moments.
pub fn read_events(alloc: Global, text: &[u8]) -> Result<Script, EventsError>
    ensures value { IfOk result (IsScriptOf (lines_of text.now)) }
    ensures refused { IfErr result (IsEventsFault (lines_of text.now)) }
{
    let mut script = Script::new(alloc);
    let mut left = text;
    let mut count: usize = 0;
    while let Some((line, rest)) = next_line(left) {
        match right_line(&script, line) {
            Some(checked) => script.add(alloc, &checked)?,
            None => return Err(EventsError::BadLine(count + 1)),
        }
        left = rest;
        count += 1;
    }
    Ok(script)
}

// The line, if it is right by itself and may follow those of a script.
fn right_line<'a>(script: &Script, line: &'a [u8]) -> Option<Checked<'a>>
    ensures meaning { MatchOption result (result ≡ None) (λ checked. (line_of line.entry.now ≡ meaning checked) × (is_some (meaning checked) ≡ true)) }
    ensures right { (size : ℕ) (all : List Said) → Collects size script.entry.now all → is_some result ≡ may_follow all (line_of line.entry.now) }
{
    let checked = Checked::read(line)?;
    match checked {
        Checked::Moments { connection, .. } if script.names(connection) => None,
        _ => Some(checked),
    }
}
