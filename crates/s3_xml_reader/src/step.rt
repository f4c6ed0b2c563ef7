//! A step of a reader.

ghost use Rattle.std.specs.Prelude.{◌≡◌, ◌<◌, None, length, option_map, IfOk, IfErr};
ghost use Rattle.s3_xml_reader.specs.Place.{to_end, with_ended, as_ended};

use crate::element::Element;
use crate::error::Error;
use crate::place::Place;
use crate::told::told_at;

/// Goes on by what is told at the front of a text: the element that ends with it, if one does, and what stands behind it.
///
/// # Errors
///
/// `Malformed` where nothing is told or it may not stand here, and `NoMemory` where memory runs out for the text of an element.
/// Nothing has changed then.
#[tactic(auto, using(crate::proofs::StepLemmas::steps))]
pub(crate) fn step<'a>(
    place: &mut Place<'a>,
    bytes: &'a [u8],
) -> Result<(Option<Element<'a>>, &'a [u8]), Error>
    requires { 0 < length bytes.now }
    ensures ok { IfOk result (λ r. to_end place.old bytes.now ≡ with_ended (option_map as_ended r.0) (to_end place.new r.1.now)) }
    ensures shorter { IfOk result (λ r. length r.1.now < length bytes.now) }
    ensures malformed { IfErr result (λ e. e ≡ Error.Malformed → to_end place.old bytes.now ≡ None) }
    ensures memory { IfErr result (λ e. e ≡ Error.NoMemory → 0 < length place.old.within) }
    ensures unchanged { IfErr result (λ e. place.new ≡ place.old) }
{
    let Some((told, rest)) = told_at(bytes) else {
        return Err(Error::Malformed);
    };
    match place.go_on(told) {
        Ok(element) => Ok((element, rest)),
        Err(error) => Err(error),
    }
}
