//! The bags that are in the opened text of a store.
ghost use Rattle.std.specs.Prelude.{◌≡◌};
ghost use Rattle.p12.specs.Place.{at_place};
ghost use Rattle.transfer.specs.OpenedSafe.{ListsAt, bags_there};

use p12::{BagsView, Place};

/// The bags that are at a place, lent one after the other. They were read whole before, and are not again.
pub(crate) fn bags_at<'a>(text: &'a [u8], place: Place) -> BagsView<'a>
    requires { ListsAt text.now place }
    ensures are { result.left ≡ bags_there text.now place }
    ensures bytes { result.bytes ≡ at_place place text.now }
{
    BagsView::of_listed(&text[place.start..place.start + place.len])
}
