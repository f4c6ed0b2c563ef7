//! Tests of `s3_server`: a server and its clients in one process, over real sockets of this machine, and the slots. Requests are
//! signed by `s3_signer`; what is answered is as `docs/PROTOCOL.md` says.

mod client;
mod loopback;
mod screen;
mod slots;
