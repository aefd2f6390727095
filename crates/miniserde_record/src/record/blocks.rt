//! Fields of a struct in blocks of four. The time to check a proof grows with each nested slot, and a block of four
//! counts as one.
use super::marks::Mark;
use super::slots::{Layout, MarkedSlot, OutOfLine, Slot, Slots};
use super::written::WrittenFields;
use miniserde_keys::Ranged;
use miniserde_model::error::Result;
use miniserde_read::{FromJson, Source};
use miniserde_ser::ser::Serialize;
use std::alloc::Global;

/// Four fields of the types `A`, `B`, `C` and `D` with the marks `M`, `N`, `O` and `P`, and the
/// fields `Z` after them.
#[derive(Drop)]
pub struct MarkedFour<A, M, B, N, C, O, D, P, Z> {
    slots: MarkedSlot<A, M, MarkedSlot<B, N, MarkedSlot<C, O, MarkedSlot<D, P, Z>>>>,
}

impl<
    A: FromJson,
    M: Mark<A>,
    B: FromJson,
    N: Mark<B>,
    C: FromJson,
    O: Mark<C>,
    D: FromJson,
    P: Mark<D>,
    Z: Slots,
> Slots for MarkedFour<A, M, B, N, C, O, D, P, Z> {
    type Values = <MarkedSlot<
        A,
        M,
        MarkedSlot<B, N, MarkedSlot<C, O, MarkedSlot<D, P, Z>>>,
    > as Slots>::Values;

    ghost meaning = { ⟦<MarkedSlot<A, M, MarkedSlot<B, N, MarkedSlot<C, O, MarkedSlot<D, P, Z>>>> as Slots>⟧.meaning };

    ghost state = { λ f. ⟦<MarkedSlot<A, M, MarkedSlot<B, N, MarkedSlot<C, O, MarkedSlot<D, P, Z>>>> as Slots>⟧.state f.slots };

    ghost end_infallible = { ⟦<MarkedSlot<A, M, MarkedSlot<B, N, MarkedSlot<C, O, MarkedSlot<D, P, Z>>>> as Slots>⟧.end_infallible };

    fn new() -> MarkedFour<A, M, B, N, C, O, D, P, Z> {
        MarkedFour {
            slots: <MarkedSlot<
                A,
                M,
                MarkedSlot<B, N, MarkedSlot<C, O, MarkedSlot<D, P, Z>>>,
            > as Slots>::new(),
        }
    }

    #[inline(always)]
    fn read_member<'a, L: Layout>(
        &mut self,
        names: &[&str],
        name: &str,
        source: &mut Source<'a>,
    ) -> Result<()> {
        self.slots.read_member::<OutOfLine>(names, name, source)
    }

    fn end(self, alloc: Global) -> Result<Self::Values> {
        let MarkedFour { slots } = self;
        slots.end(alloc)
    }
}

impl<
    A: Ranged + Serialize,
    M,
    B: Ranged + Serialize,
    N,
    C: Ranged + Serialize,
    O,
    D: Ranged + Serialize,
    P,
    Z: WrittenFields,
> WrittenFields for MarkedFour<A, M, B, N, C, O, D, P, Z> {
    type Values = <MarkedSlot<
        A,
        M,
        MarkedSlot<B, N, MarkedSlot<C, O, MarkedSlot<D, P, Z>>>,
    > as WrittenFields>::Values;

    ghost valid = { ⟦<MarkedSlot<A, M, MarkedSlot<B, N, MarkedSlot<C, O, MarkedSlot<D, P, Z>>>> as WrittenFields>⟧.valid };

    ghost trees = { ⟦<MarkedSlot<A, M, MarkedSlot<B, N, MarkedSlot<C, O, MarkedSlot<D, P, Z>>>> as WrittenFields>⟧.trees };
}

/// Four fields without marks, of the types `A`, `B`, `C` and `D`, and the fields `Z` after them.
/// The type names no marks, so its proofs are checked faster than those of `MarkedFour`.
#[derive(Drop)]
pub struct FourSlot<A, B, C, D, Z> {
    slots: Slot<A, Slot<B, Slot<C, Slot<D, Z>>>>,
}

impl<A: FromJson, B: FromJson, C: FromJson, D: FromJson, Z: Slots> Slots
    for FourSlot<A, B, C, D, Z> {
    type Values = <Slot<A, Slot<B, Slot<C, Slot<D, Z>>>> as Slots>::Values;

    ghost meaning = { ⟦<Slot<A, Slot<B, Slot<C, Slot<D, Z>>>> as Slots>⟧.meaning };

    ghost state = { λ f. ⟦<Slot<A, Slot<B, Slot<C, Slot<D, Z>>>> as Slots>⟧.state f.slots };

    ghost end_infallible = { ⟦<Slot<A, Slot<B, Slot<C, Slot<D, Z>>>> as Slots>⟧.end_infallible };

    fn new() -> FourSlot<A, B, C, D, Z> {
        FourSlot {
            slots: <Slot<A, Slot<B, Slot<C, Slot<D, Z>>>> as Slots>::new(),
        }
    }

    #[inline(always)]
    fn read_member<'a, L: Layout>(
        &mut self,
        names: &[&str],
        name: &str,
        source: &mut Source<'a>,
    ) -> Result<()> {
        self.slots.read_member::<OutOfLine>(names, name, source)
    }

    fn end(self, alloc: Global) -> Result<Self::Values> {
        let FourSlot { slots } = self;
        slots.end(alloc)
    }
}

impl<
    A: Ranged + Serialize,
    B: Ranged + Serialize,
    C: Ranged + Serialize,
    D: Ranged + Serialize,
    Z: WrittenFields,
> WrittenFields for FourSlot<A, B, C, D, Z> {
    type Values = <Slot<A, Slot<B, Slot<C, Slot<D, Z>>>> as WrittenFields>::Values;

    ghost valid = { ⟦<Slot<A, Slot<B, Slot<C, Slot<D, Z>>>> as WrittenFields>⟧.valid };

    ghost trees = { ⟦<Slot<A, Slot<B, Slot<C, Slot<D, Z>>>> as WrittenFields>⟧.trees };
}
