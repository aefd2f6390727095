//! What the responses of a store say of the puts before them.
ghost use Rattle.store.specs.Answered.{codec};
ghost use Rattle.store.specs.Last.{LastPutIsShown};

use miniserde::{Lossless, Stable};

/// States that the text of a key is that of the value that was last put under it, and that there is none exactly if no
/// put stands.
pub fn last_put_is_shown<V: Stable + Lossless>()
    ensures { LastPutIsShown (codec V.means V.tree) }
{}
