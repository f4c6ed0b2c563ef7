//! What is known of all connections: laws, with nothing to run.

ghost use Rattle.s3_connection.specs.Holds.{ConnectionsWrite};
ghost use Rattle.s3_connection.specs.Output.{OneOutput};

use s3_session::{inputs_fix_outputs, outputs_stay, sessions_write};

/// A law: a connection that holds some bytes, moments and entries has written its output for them, sent or not, as far as it has
/// taken the bytes; and the turn that it has waits in that output. There is nothing to run.
pub fn connections_write()
    ensures { ConnectionsWrite }
{
    sessions_write();
    outputs_stay();
}

/// A law: settings, what a connection received, the entries of its commands, and a list of moments of which its messages had the
/// first ones, fix what it writes, how it stands and which turn waits, as long as memory does not run out. There is nothing to
/// run.
pub fn outputs_are_one()
    ensures { OneOutput }
{
    inputs_fix_outputs();
}
