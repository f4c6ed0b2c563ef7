//! A body and its place.

ghost use Rattle.std.specs.Prelude.{◌≡◌, ◌+◌, ◌<◌, [], ◌∷◌, drop, Option, MatchOption};
ghost use Rattle.std.specs.VecDeque.{deque_len, deque_capacity};
ghost use Rattle.s3_outbox.specs.Pending.{placed};

use s3_bodies::Body;
use std::collections::VecDeque;

/// A body, and how many bytes of the text stand before it.
#[derive(Drop)]
pub(crate) struct Placed {
    pub(crate) behind: usize,
    pub(crate) body: Body,
}

// Puts a body that has bytes behind the others, and lets an empty one go.
pub(crate) fn place(bodies: &mut VecDeque<Placed>, behind: usize, body: Option<Body>)
    requires room { deque_len bodies.old < deque_capacity bodies.old }
    ensures items { bodies.new.items ≡ placed bodies.old.items behind body }
    ensures capacity { deque_capacity bodies.new ≡ deque_capacity bodies.old }
{
    match body {
        None => (),
        Some(body) => {
            if body.size() > 0 {
                bodies.push_back_reserved(Placed { behind, body });
            }
        }
    }
}

// The first body with its place.
pub(crate) fn first_of(bodies: &VecDeque<Placed>) -> Option<&Placed>
    ensures first { MatchOption result
        (bodies.now.items ≡ [])
        (λ first. bodies.now.items ≡ first.now ∷ drop 1 bodies.now.items) }
{
    bodies.front()
}
