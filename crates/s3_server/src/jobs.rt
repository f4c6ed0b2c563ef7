//! What the threads of a server do.

ghost use Rattle.std.specs.Prelude.{◌≡◌, length, IfErr, IfOk};
ghost use Rattle.s3_server.specs.Serve.{IsListenFault};

use crate::arrivals::LISTENER;
use crate::worker::{Means, Memory};
use s3_log::LogWriter;
use s3_settings::{Fault, ServeMode};
use s3_sockets::{Entrance, Listener, Network};
use std::alloc::Global;
use std::net::Net;

/// What one worker works with: its means, and the entrance of its door.
#[derive(Drop)]
pub(crate) struct Opened {
    pub(crate) means: Means,
    pub(crate) entrance: Entrance,
}

/// What is to be done: as many workers work as there are of these, and one thread writes the log, if there is one.
#[derive(Drop)]
pub(crate) struct Jobs {
    pub(crate) opened: Vec<Opened>,
    pub(crate) writer: Option<LogWriter>,
}

/// What is to be done for those that come to a listener: a worker's work each, and the writing of the log.
pub(crate) fn all_jobs<'a, N: Net>(
    alloc: Global,
    mode: &ServeMode<'a>,
    listener: &Listener,
    network: &mut Network<'_, N>,
) -> Result<Jobs, Fault<'a>>
    ensures workers { IfOk result (λ jobs. length jobs.opened.items ≡ mode.now.workers) }
    ensures refused { IfErr result (IsListenFault mode.now.address) }
    ensures asked { network.new.asked ≡ network.old.asked }
    ensures closed { network.new.closed ≡ network.old.closed }
{
    let mut opened = Vec::new(alloc);
    for _ in 0..mode.workers {
        opened.push(one_opened(alloc, mode.address, listener, network)?)?;
    }
    let writer = match mode.log {
        Some(_) => Some(LogWriter::new(alloc)?),
        None => None,
    };
    Ok(Jobs { opened, writer })
}

// What one worker works with, for those that come to a listener. It takes all the memory that the worker works with but that of
// its connections.
fn one_opened<'a, N: Net>(
    alloc: Global,
    address: &'a str,
    listener: &Listener,
    network: &mut Network<'_, N>,
) -> Result<Opened, Fault<'a>>
    ensures refused { IfErr result (IsListenFault address.entry) }
    ensures asked { network.new.asked ≡ network.old.asked }
    ensures closed { network.new.closed ≡ network.old.closed }
{
    let memory = Memory::new(alloc)?;
    match network.open_door(listener, LISTENER) {
        Ok((poll, entrance)) => Ok(Opened {
            means: Means::new(poll, memory),
            entrance,
        }),
        Err(_) => Err(Fault::CannotListen(address)),
    }
}
