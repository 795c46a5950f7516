//! Laws about items that change places. Each law is a function with an empty body, whose contract is the law.
ghost use Rattle.gt_commuting.specs.Swapping.{ApartChangePlaces, BeginningsAreApart, LookAlikeGoOn};
ghost use Rattle.gt_commuting.specs.Swapping.{StepsThatTouchApartAreApart};

/// Proves that an item that is right after one of two histories that look the same to every domain is right after
/// the other one too, and that they look the same after it.
pub fn every_look_alike_goes_on()
    ensures { LookAlikeGoOn }
{}

/// Proves that two items of different domains that do not disturb each other may come in either order.
pub fn items_that_are_apart_change_places()
    ensures { ApartChangePlaces }
{}

/// Proves that a beginning and an item of another domain do not disturb each other.
pub fn every_beginning_is_apart()
    ensures { BeginningsAreApart }
{}

/// Proves that steps of different domains do not disturb each other if they touch nothing in common that one of them
/// changes: no entry, no header that one of them stores, and no frames of an owner to which one of them writes. An unpin
/// touches the entries on which it releases a pin. A look at a body word of an entry disturbs no step on that entry, and
/// only a store of a body word disturbs it.
pub fn steps_that_touch_apart_are_apart()
    ensures { StepsThatTouchApartAreApart }
{}
