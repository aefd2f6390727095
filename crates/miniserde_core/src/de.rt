//! Types that read themselves from a text, and keys of maps.

pub use miniserde_keys::{InjectiveKey, MapKey, Ranged};
pub use miniserde_read::{FromJson, Ignored, Source, Step, next_element};

/// Types whose values have one event.
pub mod leaf {
    pub use miniserde_read::{Leaf, read_leaf};
}
