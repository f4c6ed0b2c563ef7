//! Tests of `s3_driver`: connections over a stream that gives and takes in pieces, would block, and fails; how long one may wait;
//! two connections that share a recorded store, in turns; two at one shared store, one of which is held inside a body, or inside
//! a reply; and two whose turns come to a shared store in batches. What is written is compared to `s3_simulation::replay_one`'s;
//! it, and how long a connection may wait, is as `docs/PROTOCOL.md` says. Tests of `s3_journal`: a recorded store that answers
//! turns, and eight threads at one shared store; of `s3_log`: the lines of a connection's messages; and of `s3_simulation`:
//! events of two connections that share one store, and what is written for each.

mod acts;
mod answers;
mod asked;
mod batches;
mod connections;
mod gate_overlap;
mod journal;
mod limits;
mod lines;
mod old_bytes;
mod play;
mod seats;
mod served;
mod shared_store_handle;
mod stream;
mod tests;
mod turns;
mod within;
mod worlds;
