//! The promises of `RoundTripFields` and `LosslessFields` for fields that are not written if they are `None`.
ghost use Rattle.std.specs.Prelude.{◌∷◌, None, option_map};
ghost use Rattle.miniserde_record.specs.FieldsMeaning.{field_and};

use super::lossless::LosslessFields;
use super::round_trips::RoundTripFields;
use crate::lossless::{Lossless, NeverNull};
use crate::round_trip::RoundTrip;
use miniserde_keys::Ranged;
use miniserde_read::FromJson;
use miniserde_record::record::{OmitSlot, Parts, Repeats};

impl<T: RoundTrip + NeverNull, M: Repeats, R: RoundTripFields> RoundTripFields
    for OmitSlot<T, M, R> {
    type Values = Parts<Option<T>, R::Values>;

    ghost meaning = { field_and M.once None ⟦<Option<T> as FromJson>⟧.means ⟦<Option<T> as FromJson>⟧.absent R.meaning };

    ghost valid = { λ v. ⟦<Option<T> as Ranged>⟧.valid v.0 × R.valid v.1 };

    ghost trees = { λ v. option_map T.tree v.0 ∷ R.trees v.1 };

    fn round_trips() {
        <Option<T> as RoundTrip>::round_trips();
        T::never_null();
        R::round_trips();
    }
}

impl<T: Lossless + NeverNull, M: Repeats, R: LosslessFields> LosslessFields for OmitSlot<T, M, R> {
    type Values = Parts<Option<T>, R::Values>;

    ghost meaning = { field_and M.once None ⟦<Option<T> as FromJson>⟧.means ⟦<Option<T> as FromJson>⟧.absent R.meaning };

    ghost valid = { λ v. ⟦<Option<T> as Ranged>⟧.valid v.0 × R.valid v.1 };

    ghost trees = { λ v. option_map T.tree v.0 ∷ R.trees v.1 };

    fn lossless() {
        T::lossless();
        R::lossless();
    }
}
