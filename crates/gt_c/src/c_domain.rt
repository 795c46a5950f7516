//! What a handle holds: a domain, the number of its run, and to whom its entries were last granted.

use crate::grantees::Grantees;
use gt_allow::AllowTable;
use gt_attached::AttachedDomain;

/// A domain with the rights of a compiled policy, the number of its run, and to whom its entries were last granted.
#[derive(Drop)]
pub struct CDomain {
    pub attached: AttachedDomain<AllowTable>,
    pub run: u32,
    pub granted: Grantees,
}
