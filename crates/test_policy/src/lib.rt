//! Tests of policies, of their tables, of the listing of what they allow, of paths, of pairs of types, and of findings
//! (`gt_policy`, `gt_allow`, `gt_policy_list`, `gt_policy_questions`, `gt_findings`), over their public
//! items.
//!
//! They test what no contract specifies: names and numbers of types, texts at the limits and texts that are cut off,
//! and readers and writers that fail. Worked texts with what they allow are in `cases_play`.
#![tactic(auto)]

#[cfg(test)]
mod compare;
#[cfg(test)]
mod findings;
#[cfg(test)]
mod flows;
#[cfg(test)]
mod listing;
#[cfg(test)]
mod pairs;
#[cfg(test)]
mod policy;
#[cfg(test)]
mod tables;
#[cfg(test)]
mod texts;
