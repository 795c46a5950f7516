//! Laws of map handles. The values of a map are taken as a list, or counted.
ghost use Rattle.gt_handles.specs.Listing.{InsertedIsCounted, InsertedIsListed, NoMorePass, NothingIsListed};
ghost use Rattle.gt_handles.specs.Listing.{TakenIsCounted, TakenIsUnlisted};

use crate::handles::Handles;

impl<T> Handles<T> {
    /// Proves that a new map lists no value.
    pub fn nothing_is_listed()
        ensures { NothingIsListed T }
    {}

    /// Proves that `insert` appends its value to the list of values.
    pub fn inserted_is_listed()
        ensures { InsertedIsListed T }
    {}

    /// Proves that `take` and `pop` remove their value from the list of values, and no other.
    pub fn taken_is_unlisted()
        ensures { TakenIsUnlisted T }
    {}

    /// Proves that `insert` raises the number of values that pass a test by one if its value passes, and else keeps
    /// it.
    pub fn inserted_is_counted()
        ensures { InsertedIsCounted T }
    {}

    /// Proves that `take` and `pop` lower the number of values that pass a test by one if their value passes, and
    /// else keep it.
    pub fn taken_is_counted()
        ensures { TakenIsCounted T }
    {}

    /// Proves that no more values pass a test than there are.
    pub fn no_more_pass_than_there_are()
        ensures { NoMorePass T }
    {}
}
