//! The kind of a container: array or object.

/// The kind of a container: an array or an object (RFC 8259, sections 4 and 5).
#[derive(Clone, Copy, Debug, Drop)]
pub enum Kind {
    /// `[`, elements and `]`.
    Seq,
    /// `{`, members and `}`.
    Map,
}
