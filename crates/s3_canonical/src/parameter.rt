//! The parameters of a query, encoded and in their order.

ghost use Rattle.std.specs.Prelude.{◌≡◌, ◌++◌, IfOk, filter, map};
ghost use Rattle.std.specs.List.{join_with_byte};
ghost use Rattle.s3_text.specs.Characters.{ampersand};
ghost use Rattle.s3_canonical.specs.Parameter.{pair, pairs};
ghost use Rattle.s3_canonical.specs.CanonicalTarget.{encoded_pair, is_signed_parameter, print_pair, sorted_pairs};

use crate::encoding::encode_query;
use s3_http_heads::Target;
use std::alloc::{AllocError, Global};

// A parameter of a query: its name and its value, both encoded. Its order is by name and then by
// value, byte by byte.
#[derive(Drop, PartialEq, Eq, PartialOrd, Ord)]
pub(crate) struct Parameter {
    name: Vec<u8>,
    value: Vec<u8>,
}

impl Parameter {
    // The parameter of this name and this value, encoded.
    fn encoded(alloc: Global, name: &[u8], value: &[u8]) -> Result<Parameter, AllocError>
        ensures { IfOk result (λ parameter. pair parameter ≡ encoded_pair (name.now, value.now)) }
    {
        let name = encode_query(alloc, name)?;
        let value = encode_query(alloc, value)?;
        Ok(Parameter { name, value })
    }

    // Writes `name=value`.
    fn print(&self, text: &mut Vec<u8>) -> Result<(), AllocError>
        ensures { IfOk result (λ _. text.new.items ≡ text.old.items ++ print_pair (pair self.now)) }
    {
        text.extend_from_slice(&self.name)?;
        text.push(b'=')?;
        text.extend_from_slice(&self.value)
    }
}

// The parameters of a target but the signature, encoded, as they come.
fn encoded_all(alloc: Global, target: &Target) -> Result<Vec<Parameter>, AllocError>
    ensures { IfOk result (λ all. pairs all.items
        ≡ map encoded_pair (filter is_signed_parameter target.now.parameters)) }
{
    let mut all = Vec::new(alloc);
    for index in 0..target.parameter_count() {
        let (name, value) = target.parameter(index);
        if name != b"X-Amz-Signature".as_slice() {
            all.push(Parameter::encoded(alloc, name, value)?)?;
        }
    }
    Ok(all)
}

// The parameters, each as `name=value`, joined by ampersands.
fn join(alloc: Global, all: &[Parameter]) -> Result<Vec<u8>, AllocError>
    ensures { IfOk result (λ text. text.items ≡ join_with_byte ampersand (map print_pair (pairs all.now))) }
{
    let mut text = Vec::new(alloc);
    for (i, parameter) in all.iter().enumerate() {
        if i > 0 {
            text.push(b'&')?;
        }
        parameter.print(&mut text)?;
    }
    Ok(text)
}

// The parameters of a target but the signature, encoded, sorted and joined.
#[tactic(auto, using(crate::proofs::ParameterLemmas::sorting))]
pub(crate) fn sorted_query(alloc: Global, target: &Target) -> Result<Vec<u8>, AllocError>
    ensures { IfOk result (λ text. text.items ≡ join_with_byte ampersand
        (map print_pair (sorted_pairs (map encoded_pair (filter is_signed_parameter target.now.parameters))))) }
{
    let mut all = encoded_all(alloc, target)?;
    all.sort()?;
    join(alloc, &all)
}
