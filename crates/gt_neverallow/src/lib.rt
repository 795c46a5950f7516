//! The `neverallow` statements of the SELinux policy language, and the allow statements of a policy that break them.
//!
//! A `neverallow` statement grants nothing: it lists what no allow statement of the policy may grant. [`read_texts`]
//! reads a policy and a text of such statements, and [`breaches_of`] returns each pair of an allow statement and a
//! `neverallow` statement that forbids something that the first one grants. [`push_breaches`] prints them, in the layout
//! of compilers or as JSON. The text may have `neverflow` statements too, which `gt_neverflow` compares with the policy.
//!
//! It is proved that the pairs are exactly those for which some source, target and permission are granted by the one
//! and forbidden by the other, and that the example of a pair is such a source, permission and target. The pairs have
//! the order of the policy. An error is the first fault of the policy or of the other text, or that the other text
//! forbids no permission of class `grant`, with the findings of the words in it that nothing knows.
//!
//! It uses `gt_policy` and `gt_policy_text` (statements and tokens), `gt_policy_statements` (types, what a statement
//! grants), `gt_findings` (findings), `gt_types` (permissions) and `gt_text` (text).
#![tactic(auto)]

mod breaking;
mod example;
mod fault;
mod forbidding;
mod names;
mod parser;
mod printing;
mod reading;
mod statement;
mod words;

pub use breaking::{Breach, breaches_of};
pub use example::push_short_name;
pub use fault::NeverFault;
pub use forbidding::is_chosen;
pub use printing::{LinedTexts, push_breaches};
pub use reading::{ReadTexts, read_texts};
pub use statement::{Forbidden, NeverStatement, TypeChoice};
pub use words::unknown_words;
