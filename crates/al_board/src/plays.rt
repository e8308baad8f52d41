//! The rule of a board, and what each of its steps tells. These types are for the proofs alone.
ghost use Rattle.std.specs.Prelude.{◌≡◌};
ghost use Rattle.al_board.specs.Rule.{IsKept, terms_of};
ghost use Rattle.al_board.specs.Views.{opener, spent_view, keeping, parted, joined};
ghost use Rattle.al_board.specs.Steps.{IsDraw, IsLook, IsTake, IsFill, IsSeizure, IsTry, IsHanding};

use crate::piece::Piece;
use crate::view::{Setting, Slot, View};
use atomic_table::{Join, Play, Split, TableRule};

pub struct Lanes;

impl<T: Piece> TableRule<Slot<T, T::Shelf>, View<T, T::Task>, Setting<T::Task>> for Lanes {
    ghost holds = { λ key. IsKept (terms_of T.fits T.laid T.stands T.lanes key) };

    ghost first = { opener };
}

pub struct Draw;

impl<T, H, K> Play<Slot<T, H>, View<T, K>> for Draw {
    ghost then = { IsDraw };
}

pub struct Look;

impl<T, H, K> Play<Slot<T, H>, View<T, K>> for Look {
    ghost then = { IsLook };
}

pub struct Take;

impl<T, H, K> Play<Slot<T, H>, View<T, K>> for Take {
    ghost then = { IsTake };
}

pub struct Fill;

impl<T, H, K> Play<Slot<T, H>, View<T, K>> for Fill {
    ghost then = { IsFill };
}

pub struct Seize;

impl<T: Piece> Play<Slot<T, T::Shelf>, View<T, T::Task>> for Seize {
    ghost then = { IsSeizure T.laid (λ k n h. T.stands k h × (T.lanes k ≡ n)) };
}

pub struct Try;

impl<T: Piece> Play<Slot<T, T::Shelf>, View<T, T::Task>> for Try {
    ghost then = { IsTry T.fits };
}

pub struct PassOn;

impl<T, H, K> Play<Slot<T, H>, View<T, K>> for PassOn {
    ghost then = { IsHanding };
}

pub struct Halve;

impl<T, K> Split<View<T, K>> for Halve {
    ghost left = { keeping };

    ghost right = { parted };
}

pub struct Unite;

impl<T, K> Join<View<T, K>> for Unite {
    ghost both = { joined };

    ghost spent = { spent_view };
}
