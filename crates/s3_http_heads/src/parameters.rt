//! The parameters of a query, with their escapes read, as places in one text.
ghost use Rattle.std.specs.Prelude.{◌≡◌, ◌<◌, ◌+◌, ◌++◌, length, map, Some, IfOk, slice_get};
ghost use Rattle.s3_http_heads.specs.Target.{pair_of, pieces_of};
ghost use Rattle.s3_http_heads.specs.Parameters.{IsPlaceWithin, place_bytes};

use percent_encoding::percent_decode;
use s3_text::{after_first, before_first};
use std::alloc::{AllocError, Global};
use std::marker::Model;

// Where a parameter stands in a text: its name up to `middle`, and its value from there to `end`.
#[derive(Clone, Copy)]
pub(crate) struct Place {
    start: u32,
    middle: u32,
    end: u32,
}

// The parameters of a query: their names and their values, one after the other, and their places.
#[derive(Drop)]
pub(crate) struct Parameters {
    text: Vec<u8>,
    places: Vec<Place>,
}

impl Model for Parameters {
    ghost use Rattle.std.specs.Prelude.{ℕ, List, length, map, All};
    ghost use Rattle.s3_http_heads.specs.Parameters.{IsPlaceWithin, place_bytes};

    ghost Value = { List (List ℕ × List ℕ) };

    ghost view = { λ p. map (place_bytes p.text.items) p.places.items };

    ghost invariant = { λ p. All (IsPlaceWithin (length p.text.items)) p.places.items };
}

impl Parameters {
    // The parameters of a query, in their order.
    pub(crate) fn read(alloc: Global, query: &[u8]) -> Result<Parameters, AllocError>
        ensures { IfOk result (λ all. all ≡ map pair_of (pieces_of query.now)) }
    {
        let mut text = Vec::new(alloc);
        let mut places = Vec::new(alloc);
        for piece in query.split(|b| *b == b'&') {
            if !piece.is_empty() {
                places.push(append(piece, &mut text)?)?;
            }
        }
        Ok(Parameters { text, places })
    }

    pub(crate) fn count(&self) -> usize
        ensures { result ≡ length self.now }
    {
        self.places.len()
    }

    // The name and the value at `index`, from 0.
    pub(crate) fn at(&self, index: usize) -> (&[u8], &[u8])
        requires { index < length self.now }
        ensures { slice_get self.now index ≡ Some (result.0.now, result.1.now) }
    {
        let place = self.places[index];
        (
            &self.text[place.start as usize..place.middle as usize],
            &self.text[place.middle as usize..place.end as usize],
        )
    }
}

// A length as a place; a text of 4 GiB counts as out of memory.
fn place_of(text: &[u8]) -> Result<u32, AllocError>
    ensures { IfOk result (λ place. place ≡ length text.now) }
{
    match u32::try_from(text.len()) {
        Ok(place) => Ok(place),
        Err(_) => Err(AllocError),
    }
}

// Appends the name and the value of a piece, and tells their place.
fn append(piece: &[u8], text: &mut Vec<u8>) -> Result<Place, AllocError>
    ensures start { IfOk result (λ place. place.start ≡ length text.old.items) }
    ensures middle { IfOk result (λ place. place.middle ≡ length text.old.items + length (pair_of piece.now).0) }
    ensures end { IfOk result (λ place. place.end ≡ length text.new.items) }
    ensures text { IfOk result (λ _. text.new.items ≡ text.old.items ++ (pair_of piece.now).0 ++ (pair_of piece.now).1) }
{
    let start = place_of(text)?;
    percent_decode(before_first(piece, b'=')).append_to(text)?;
    let middle = place_of(text)?;
    percent_decode(after_first(piece, b'=')).append_to(text)?;
    let end = place_of(text)?;
    Ok(Place { start, middle, end })
}
