//! Tests of connections as machines, at the level of `s3_session::Session` and `s3_connection::Connection`: how
//! they are fed, what they ask for, and what they write; and, at the level of `s3_simulation::replay_one`, of connections that
//! are too long for files of events or end within a body. What is sent is signed outside of this program; what is
//! written is as `docs/PROTOCOL.md` says. Whole connections, bytes in and bytes out, are examples of `s3_scenarios`.

mod clock;
mod connections;
mod cuts;
mod kept;
mod line;
mod parts;
mod replies;
mod requests;
mod scripts;
mod server;
mod steps;
mod trials;
