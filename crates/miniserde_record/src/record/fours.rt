//! Takes the values of fields out of their chain, four at a time. One nested pattern for all fields of a long struct
//! takes too long to check.
ghost use Rattle.std.specs.Prelude.{◌≡◌};

use super::structs::Parts;

/// Four values, and the values after them.
pub struct FourParts<A, B, C, D, Z>(pub A, pub B, pub C, pub D, pub Z);

/// Takes the first four values out of a chain, and returns them with the rest of the chain.
pub fn take_four<A, B, C, D, Z>(
    parts: Parts<A, Parts<B, Parts<C, Parts<D, Z>>>>,
) -> FourParts<A, B, C, D, Z>
    ensures { (result.0, (result.1, (result.2, (result.3, result.4)))) ≡ parts }
{
    let Parts(a, parts) = parts;
    let Parts(b, parts) = parts;
    let Parts(c, parts) = parts;
    let Parts(d, parts) = parts;
    FourParts(a, b, c, d, parts)
}
