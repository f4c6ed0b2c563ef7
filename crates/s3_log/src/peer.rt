//! The address of a connection's peer.

ghost use Rattle.std.specs.Prelude.{◌≡◌, [], IfOk};
ghost use Rattle.std.specs.Net.Text.{socket_text};
ghost use Rattle.std.specs.Option.{option_map_or};

use s3_terms::NoMemory;
use std::alloc::Global;
use std::net::SocketAddr;

/// The address as a text; an empty one where it isn't known.
pub(crate) fn peer_text(alloc: Global, peer: Option<SocketAddr>) -> Result<Vec<u8>, NoMemory>
    ensures { IfOk result (λ text. text.items ≡ option_map_or socket_text peer []) }
{
    match peer {
        Some(peer) => address_text(alloc, peer),
        None => Ok(Vec::new(alloc)),
    }
}

fn address_text(alloc: Global, address: SocketAddr) -> Result<Vec<u8>, NoMemory>
    ensures { IfOk result (λ text. text.items ≡ socket_text address) }
{
    let text = format!(in alloc; "{address}")?;
    Ok(text.into_bytes())
}
