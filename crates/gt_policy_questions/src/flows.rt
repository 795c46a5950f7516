//! Questions about where bytes may flow by the text of a policy.
pub(crate) mod asking;
pub(crate) mod format;
mod lines;
mod pairs;
mod steps;
