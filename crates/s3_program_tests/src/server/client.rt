//! A client, which puts an object and gets it back.
use s3_calendar::{Moment, Stamp};
use s3_signer::signed_request;
use s3_test_servers::{ID, SECRET};
use std::alloc::Global;
use std::io::{self, Read, Write};
use std::net::{Ipv4Addr, SocketAddr, TcpStream};
use std::time::{Clock, Duration};

// How many bytes an object has: more than a server reads at a time.
const SIZE: usize = 1_000_000;

// How many reads a reply takes at most.
const READS: u32 = 1_000_000;

// How many seconds a client waits for its server.
const PATIENCE: u64 = 10;

/// Whether a server at a port stores an object under a target and gives it back, all bytes of which are this letter. It connects
/// before all else, so that the server has this connection whatever comes.
pub(crate) fn is_answered(
    system: &HostRuntime,
    alloc: Global,
    port: u16,
    target: &[u8],
    letter: u8,
) -> Option<bool> {
    let mut stream = connected(system, port).ok()?;
    let body = Vec::from_elem(alloc, letter, SIZE).ok()?;
    Some(
        is_put(system, alloc, &mut stream, target, &body)?
            && is_got(system, alloc, &mut stream, target, &body)?,
    )
}

// A connection to a port of this machine.
fn connected(system: &HostRuntime, port: u16) -> io::Result<TcpStream> {
    let stream = TcpStream::connect(system, SocketAddr::from((Ipv4Addr::LOCALHOST, port)))?;
    let patience = Some(Duration::from_secs(PATIENCE));
    stream.set_read_timeout(patience)?;
    stream.set_write_timeout(patience)?;
    Ok(stream)
}

// Whether a put of these bytes is answered.
fn is_put<R: Clock, S: Read + Write>(
    rt: &R,
    alloc: Global,
    stream: &mut S,
    target: &[u8],
    body: &[u8],
) -> Option<bool> {
    let request = signed(rt, alloc, b"PUT", target, body)?;
    is_ok(alloc, stream, &request, b"\r\n\r\n")
}

// Whether a get gives these bytes.
fn is_got<R: Clock, S: Read + Write>(
    rt: &R,
    alloc: Global,
    stream: &mut S,
    target: &[u8],
    body: &[u8],
) -> Option<bool> {
    let request = signed(rt, alloc, b"GET", target, b"")?;
    let end = end_of(alloc, body)?;
    is_ok(alloc, stream, &request, &end)
}

// How a reply with this body ends.
fn end_of(alloc: Global, body: &[u8]) -> Option<Vec<u8>> {
    let mut end = Vec::from_slice(alloc, b"\r\n\r\n").ok()?;
    end.extend_from_slice(body).ok()?;
    Some(end)
}

// A request as a client sends it now.
fn signed<R: Clock>(
    rt: &R,
    alloc: Global,
    method: &[u8],
    target: &[u8],
    body: &[u8],
) -> Option<Vec<u8>> {
    let since = rt.since_1970().ok()?;
    let stamp = Stamp::at(Moment::new(since.as_secs())?);
    let host: [(&[u8], &[u8]); 1] = [(b"host", b"localhost")];
    signed_request(
        alloc,
        ID,
        SECRET,
        b"us-east-1",
        method,
        target,
        &host,
        body,
        stamp,
    )
    .ok()
}

// Whether the reply to a request is of status 200 and ends so.
fn is_ok<S: Read + Write>(
    alloc: Global,
    stream: &mut S,
    request: &[u8],
    end: &[u8],
) -> Option<bool> {
    stream.write_all(request).ok()?;
    let mut reply = Vec::new(alloc);
    read_to(stream, end, &mut reply).ok()?;
    Some(reply.starts_with(b"HTTP/1.1 200 OK\r\n") && reply.ends_with(end))
}

// Reads until all that has come ends so, or no more comes.
fn read_to<S: Read>(stream: &mut S, end: &[u8], reply: &mut Vec<u8>) -> io::Result<()> {
    let mut piece = [0; 4096];
    for _ in 0..READS {
        let count = stream.read(&mut piece)?;
        reply.extend_from_slice(&piece[..count])?;
        if count == 0 || reply.ends_with(end) {
            break;
        }
    }
    Ok(())
}
