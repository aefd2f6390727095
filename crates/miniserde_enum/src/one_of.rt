//! The type `OneOf`: the value of one of several variants, as a chain.

/// The value of the first variant, or of a later one.
#[derive(Drop)]
pub enum OneOf<T, R> {
    First(T),
    Later(R),
}

/// The type of the value if there is no variant. It has no values.
#[derive(Drop)]
pub enum Never {}
