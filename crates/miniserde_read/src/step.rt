//! The events of which a value consists.

/// One event of a value, which a place is handed.
#[derive(Clone, Copy, Debug, Drop)]
pub enum Step<'a> {
    Null,
    Bool(bool),
    Str(&'a str),
    /// An integer that is written with `-`, from -2^63 to 0.
    Negative(i64),
    /// An integer that is written without `-`, below 2^64.
    Nonnegative(u64),
    /// A number with a fraction or an exponent, or beyond 64 bits, as its text.
    Float(&'a str),
    /// The start of a list.
    Seq,
    /// The start of an element of the innermost open list.
    Element,
    /// The start of an object.
    Map,
    /// The start of a member of the innermost open object, with its name.
    Key(&'a str),
    /// The end of the innermost open list or object.
    Finish,
}
