//! The bytes of an object or of a part.

ghost use Rattle.std.specs.Prelude.{◌≡◌, ℕ, ◌+◌, ◌-◌, ◌<◌, ◌≤◌, [], ◌++◌, length, take, drop, IfOk, OnOk, OnErr};
ghost use Rattle.std.specs.Vec.{vec_len, vec_capacity};
ghost use Rattle.std.specs.List.{flat_map};
ghost use Rattle.s3_bodies.specs.Pieces.{IsPieceAt};

use crate::blocks::Blocks;
use crate::own::Own;
use crate::runs::Runs;
use crate::shared::{InPieces, Shared};
use crate::{BodyBuilder, Piece, Sink};
use s3_terms::NoMemory;
use std::alloc::Global;
use std::marker::Model;

/// The bytes of an object or of a part. They don't change. Contracts see a body as the list of its bytes.
///
/// The bytes lie in blocks of 1 to 65,536, which bodies share. To copy a body, to cut a range out of it and to join it
/// with others moves no byte. A block is given back with the last body that has some of it. The bytes of a document may
/// be one body's alone.
///
/// ```
/// let body = Body::of(alloc, b"hello world")?;
/// let range = body.copy()?.slice(6, 5);
/// let joined = Body::join(alloc, &[&range, &body])?;   // "worldhello world"
/// let mut at = 0;
/// while at < joined.size() {
///     let bytes = joined.piece(at).bytes();   // "world", then "hello world"
///     at += bytes.len() as u64;
/// }
/// ```
#[derive(Drop)]
pub struct Body {
    content: Content,
}

/// Where the bytes lie.
#[derive(Drop)]
enum Content {
    /// There are none.
    Nothing,
    /// In one piece that isn't shared.
    Alone(Own),
    /// In the blocks of one body as it arrived.
    One(Shared<Blocks>),
    /// In those of several.
    Many(Shared<Runs>),
}

impl Model for Body {
    ghost use Rattle.std.specs.Prelude.{ℕ, List};
    ghost use Rattle.s3_bodies.specs.Content.{bytes_of};

    ghost Value = { List ℕ };

    ghost view = { λ body. bytes_of body.content };
}

// Bytes that are copied into blocks, so that they can be shared.
fn shared(alloc: Global, bytes: &[u8]) -> Result<Shared<Blocks>, NoMemory>
    ensures { IfOk result (λ part. part ≡ bytes.now) }
{
    let mut blocks = Blocks::empty(alloc);
    blocks.append(alloc, bytes, bytes.len() as u64)?;
    Ok(Shared::new(alloc, blocks)?)
}

impl Body {
    /// The body without bytes, which takes no memory.
    pub fn empty() -> Body
        ensures { result ≡ [] }
    {
        Body {
            content: Content::Nothing,
        }
    }

    /// The body of these bytes, which are copied. `NoMemory` comes only where there are any.
    pub fn of(alloc: Global, bytes: &[u8]) -> Result<Body, NoMemory>
        ensures value { IfOk result (λ body. body ≡ bytes.now) }
        ensures memory { OnErr result (0 < length bytes.now) }
    {
        let mut builder = BodyBuilder::new(alloc, bytes.len() as u64);
        builder.take(bytes)?;
        builder.finish()
    }

    /// The body of these bytes, which are moved and not copied: in one piece, which a copy doesn't share. It takes no memory.
    pub fn alone(bytes: Vec<u8>) -> Body
        ensures { result ≡ bytes.items }
    {
        Body {
            content: Content::Alone(Own::of(bytes)),
        }
    }

    /// The body of these blocks, which are moved. `NoMemory` comes only where there are bytes.
    pub(crate) fn of_blocks(alloc: Global, blocks: Blocks) -> Result<Body, NoMemory>
        ensures value { IfOk result (λ body. body ≡ blocks) }
        ensures memory { OnErr result (0 < length blocks) }
    {
        if blocks.size() == 0 {
            return Ok(Body::empty());
        }
        Ok(Body {
            content: Content::One(Shared::new(alloc, blocks)?),
        })
    }

    /// How many bytes the body has.
    pub fn size(&self) -> u64
        ensures { result ≡ length self.now }
    {
        match &self.content {
            Content::Nothing => 0,
            Content::Alone(part) => part.size(),
            Content::One(part) => part.size(),
            Content::Many(part) => part.size(),
        }
    }

    /// The same bytes, which are shared. It takes no memory: `NoMemory` says that there are 2^63 such bodies. Those of
    /// `alone` are copied, for which memory may lack. It comes only where there are any bytes.
    pub fn copy(&self) -> Result<Body, NoMemory>
        ensures value { IfOk result (λ copy. copy ≡ self.now) }
        ensures memory { OnErr result (0 < length self.now) }
    {
        if self.size() == 0 {
            return Ok(Body::empty());
        }
        let content = match &self.content {
            Content::Nothing => Content::Nothing,
            Content::Alone(part) => Content::Alone(part.copy()?),
            Content::One(part) => Content::One(part.copy()?),
            Content::Many(part) => Content::Many(part.copy()?),
        };
        Ok(Body { content })
    }

    /// The bytes of a range, which has to lie in the body: so many from a place on. They are shared, and all others stay
    /// in memory with them. It takes no memory.
    pub fn slice(self, from: u64, size: u64) -> Body
        requires { from + size ≤ length self }
        ensures { result ≡ take size (drop from self) }
    {
        let Body { content } = self;
        let content = match content {
            Content::Nothing => Content::Nothing,
            Content::Alone(part) => Content::Alone(part.slice(from, size)),
            Content::One(part) => Content::One(part.slice(from, size)),
            Content::Many(part) => Content::Many(part.slice(from, size)),
        };
        Body { content }
    }

    /// The bytes that lie together from a place on: all from there to the end of a block, or, in a joined body, to the
    /// end of a run of blocks of one of the bodies. Only the end of this body cuts them short. It takes no memory. It takes
    /// the time to find the place, which grows with the logarithm of how many bodies were joined.
    #[tactic(auto, using(crate::proofs::PieceLemmas::piece_ends))]
    pub fn piece(&self, at: u64) -> Piece<'_>
        requires { at < length self.now }
        ensures piece { IsPieceAt at self.now result.bytes }
        ensures whole { result.bytes ≡ take (length self.now - at) (take result.run result.rest) }
        ensures within { at + length result.bytes ≤ length self.now }
    {
        match &self.content {
            // No place is before the end of no bytes.
            Content::Nothing => unreachable!(),
            Content::Alone(part) => part.piece(at),
            Content::One(part) => part.piece(at),
            Content::Many(part) => part.piece(at),
        }
    }

    /// These bodies one behind another, whose blocks are shared. It takes some 32 bytes for each run of blocks. `NoMemory`
    /// comes only where there are any bytes.
    pub fn join(alloc: Global, bodies: &[&Body]) -> Result<Body, NoMemory>
        ensures value { IfOk result (λ joined. joined ≡ flat_map (λ body. body.now) bodies.now) }
        ensures memory { OnErr result (0 < length (flat_map (λ body. body.now) bodies.now)) }
    {
        let mut runs = Runs::new(alloc);
        for body in bodies {
            body.add_to(alloc, &mut runs)?;
        }
        if runs.size() == 0 {
            return Ok(Body::empty());
        }
        Ok(Body {
            content: Content::Many(Shared::new(alloc, runs)?),
        })
    }

    // Puts runs with the same bytes behind others. `NoMemory` comes only where there are any.
    fn add_to(&self, alloc: Global, runs: &mut Runs) -> Result<(), NoMemory>
        ensures value { OnOk result (runs.new ≡ runs.old ++ self.now) }
        ensures memory { OnErr result (0 < length self.now) }
    {
        if self.size() == 0 {
            return Ok(());
        }
        match &self.content {
            Content::Nothing => Ok(()),
            Content::Alone(part) => runs.push(shared(alloc, part.as_bytes())?),
            Content::One(part) => runs.push(part.copy()?),
            Content::Many(part) => part.add_to(runs),
        }
    }

    /// Puts a copy of the bytes from a place on behind others. `NoMemory` comes only where there is no room for them
    /// already. It leaves a beginning of the copy behind the others.
    pub fn copy_to(&self, from: u64, out: &mut Vec<u8>) -> Result<(), NoMemory>
        requires { from ≤ length self.now }
        ensures copied { OnOk result (out.new.items ≡ out.old.items ++ drop from self.now) }
        ensures left { OnErr result
            (out.new.items ≡ out.old.items ++ take (vec_len out.new - vec_len out.old) (drop from self.now)) }
        ensures memory { OnErr result (vec_capacity out.old < vec_len out.old + (length self.now - from)) }
        ensures capacity { OnOk result (vec_capacity out.old ≤ vec_capacity out.new) }
    {
        let mut at = from;
        while at < self.size() {
            let piece = self.piece(at).bytes();
            out.extend_from_slice(piece)?;
            at += piece.len() as u64;
        }
        Ok(())
    }

    /// A copy of the bytes. `NoMemory` comes only where there are any.
    pub fn to_vec(&self, alloc: Global) -> Result<Vec<u8>, NoMemory>
        ensures copied { IfOk result (λ bytes. bytes.items ≡ self.now) }
        ensures memory { OnErr result (0 < length self.now) }
    {
        let mut bytes = Vec::new(alloc);
        self.copy_to(0, &mut bytes)?;
        Ok(bytes)
    }
}
