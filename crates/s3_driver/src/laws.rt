//! What is known of every connection that is served over a device: laws, with nothing to run.

ghost use Rattle.s3_driver.specs.Served.{ConnectionsAreServed, ConnectionsEnd, ConnectionsHaveWritten};

use s3_connection::connections_write;

/// A law: a connection of which nothing came is served, over a device of any name that gave and took nothing. There is nothing to run.
pub fn connections_are_served()
    ensures { ConnectionsAreServed }
{}

/// A law: what a connection that is served wrote is, at any time, a beginning of its output for what was taken of all that its
/// device gave, also while its turn is being answered. There is nothing to run.
pub fn connections_have_written()
    ensures { ConnectionsHaveWritten }
{
    connections_write();
}

/// A law: what a connection wrote that has ended. There is nothing to run.
pub fn connections_end()
    ensures { ConnectionsEnd }
{
    connections_write();
}
