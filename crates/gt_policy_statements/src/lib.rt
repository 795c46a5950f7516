//! What the statements of a policy text grant, and to which types.
//!
//! [`why`] answers a question: may a type do this to another, and by which allow statements? Each statement is listed
//! with its line, and with the attribute through which its sets hold the types. [`members_of`] returns the types with
//! all names that mean them, and [`holds`], [`reaches`] and [`gives_one`] are what sets hold and statements grant.
//!
//! It is proved that the listed statements are exactly those that grant the permission, or for a denied question exactly
//! the near misses.
//!
//! It uses `gt_policy` (the statements of a text), `gt_text` (text) and `gt_types` (permissions).
#![tactic(auto)]

mod asking;
mod granting;
mod members;
mod reading;
mod texts;

pub use asking::{Explanation, WhyAnswer, WhyQuestion, why};
pub use granting::{
    exceeds_some, gives_any_permission, gives_of, gives_one, gives_source, has_grant, has_self,
    has_word, holds, lists, names_type, reaches,
};
pub use members::{Member, is_same, members_of, push_members};
pub use reading::read_policy;
