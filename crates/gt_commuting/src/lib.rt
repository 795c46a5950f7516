//! Items that change places: when two items of two domains may come in either order in a history.
//!
//! Each law is a function that does nothing, whose contract is the law. Histories that look the same to every domain go
//! on alike ([`every_look_alike_goes_on`]). Items of different domains that do not disturb each other may come in
//! either order ([`items_that_are_apart_change_places`]). A beginning and an item of another domain do not disturb each
//! other ([`every_beginning_is_apart`]), and neither do two steps that touch nothing in common
//! ([`steps_that_touch_apart_are_apart`]). The search of `gt_explore_moves` omits orders by these laws.
//!
//! It uses `gt_core` and `gt_model` (histories and what is legal). Its definitions also name `gt_types`.
#![tactic(auto)]

mod laws;

pub use laws::{
    every_beginning_is_apart, every_look_alike_goes_on, items_that_are_apart_change_places,
    steps_that_touch_apart_are_apart,
};
