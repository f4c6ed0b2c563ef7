//! What a server tells on its output.

ghost use Rattle.std.specs.Prelude.{◌≡◌, ◌⊎◌, OnErr, OnOk, IfErr};
ghost use Rattle.std.specs.Io.KnownBytes.{Appends};
ghost use Rattle.s3_settings.specs.Devices.{AppendsBeginning};
ghost use Rattle.s3_server.specs.Serve.{IsToldFault};
ghost use Rattle.s3_server.specs.Served.{IsToldInPart, IsToldPlace, address_line, entries_line};

use s3_settings::{Fault, ServeMode, write_flushed};
use s3_sockets::Listener;
use std::alloc::Global;
use std::io::Write;
use std::net::SocketAddr;

/// Tells where the server listens.
#[tactic(auto, using(crate::proofs::ToldLemmas::telling))]
pub(crate) fn tell_address<'a, W: Write>(
    alloc: Global,
    mode: &ServeMode<'a>,
    listener: &Listener,
    output: &mut W,
) -> Result<(), Fault<'a>>
    ensures told { OnOk result (IsToldPlace (W.contents output.old) (W.contents output.new)) }
    ensures refused { IfErr result (IsToldFault mode.now.address) }
    ensures begun { OnErr result (IsToldInPart mode.now.rounds (W.contents output.old) (W.contents output.new)) }
{
    let Ok(place) = listener.local_addr() else {
        return Err(Fault::CannotListen(mode.address));
    };
    tell_place(alloc, place, output)
}

// Tells that it listens at this place.
#[tactic(auto, using(crate::proofs::ToldLemmas::telling))]
fn tell_place<'a, W: Write>(
    alloc: Global,
    place: SocketAddr,
    output: &mut W,
) -> Result<(), Fault<'a>>
    ensures told { OnOk result (Appends (W.contents output.old) (W.contents output.new) (address_line place)) }
    ensures refused { IfErr result (λ fault. (fault ≡ Fault.OutOfMemory) ⊎ (fault ≡ Fault.OutputFailed)) }
    ensures begun { OnErr result (AppendsBeginning (W.contents output.old) (W.contents output.new) (address_line place)) }
{
    let line = format!(in alloc; "listening {place}\n")?;
    write_flushed(output, line.as_bytes())
}

/// Tells how many entries there are.
#[tactic(auto, using(crate::proofs::ToldLemmas::telling))]
pub(crate) fn tell_entries<'a, W: Write>(
    alloc: Global,
    entries: u64,
    output: &mut W,
) -> Result<(), Fault<'a>>
    ensures told { OnOk result (Appends (W.contents output.old) (W.contents output.new) (entries_line entries)) }
    ensures refused { IfErr result (λ fault. (fault ≡ Fault.OutOfMemory) ⊎ (fault ≡ Fault.OutputFailed)) }
    ensures begun { OnErr result (AppendsBeginning (W.contents output.old) (W.contents output.new) (entries_line entries)) }
{
    let line = format!(in alloc; "entries {entries}\n")?;
    write_flushed(output, line.as_bytes())
}
