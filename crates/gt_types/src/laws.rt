//! Laws about the definitions of this crate. Each law is a function with an empty body, whose contract is the law.
ghost use Rattle.std.specs.Prelude.{◌≡◌, ℕ, List, [], ◌∷◌, ◌++◌, Some, None, IsTrue, All};
ghost use Rattle.gt_types.specs.Config.{domain_fault, AreFaultless, IsFirstFault};
ghost use Rattle.gt_types.specs.Names.{permission_of, is_permission, every_permission};
ghost use Rattle.gt_types.specs.declared.config.Config.{Config};
ghost use Rattle.gt_types.specs.declared.config.DomainConfig.{DomainConfig};
ghost use Rattle.gt_types.specs.declared.config.ConfigFault.{ConfigFault};
ghost use Rattle.gt_types.specs.declared.perms.Perms.{Perms};
ghost use Rattle.gt_types.specs.declared.perms.TheConstants.Perms.{EVERY};

use crate::limits::{
    DOMID_SELF, ENTRIES_V1, ENTRIES_V2, FRAME_SIZE, LAST_GENERATION, LAST_VERSION, LONGEST_TEXT,
    MAX_DOMAINS, MAX_FRAMES, MAX_MAPPINGS, MAX_PINS, MAX_TABLE_FRAMES, MAX_TRIES, TABLE_ENTRIES,
};

/// States each limit of a run as a number.
pub fn the_limits()
    ensures domains { (DOMID_SELF ≡ 32752) × (MAX_DOMAINS ≡ 64) }
    ensures frames { (MAX_FRAMES ≡ 64) × (FRAME_SIZE ≡ 4096) }
    ensures tables { (MAX_TABLE_FRAMES ≡ 16) × (LAST_VERSION ≡ 2) }
    ensures entries { (ENTRIES_V1 ≡ 512) × (ENTRIES_V2 ≡ 256) × (TABLE_ENTRIES ≡ 8192) }
    ensures pins { (MAX_PINS ≡ 4095) × (MAX_MAPPINGS ≡ 8192) }
    ensures generations { (LAST_GENERATION ≡ 1048575) × (MAX_TRIES ≡ 4) }
    ensures texts { LONGEST_TEXT ≡ 1048576 }
{}

/// States the seven permissions one by one, and that every name is the name of one permission.
#[tactic(auto, unfolding(crate::specs::Names::permission_of, crate::specs::Names::is_permission))]
pub fn the_permissions()
    ensures every { EVERY ≡ every_permission }
    ensures one { All (λ perm. IsTrue (is_permission perm)) every_permission }
    ensures named { (word : List ℕ) (perm : Perms) →
        permission_of word ≡ Some perm → IsTrue (is_permission perm) }
{}

/// Proves that a list of domains without a fault stays without one if it is followed by a domain that has no fault
/// after them. So a configuration can be checked domain by domain as it is read.
pub fn every_faultless_list_grows_by_one()
    ensures none { AreFaultless [] }
    ensures more { (ds : List DomainConfig) (d : DomainConfig) →
        AreFaultless ds → domain_fault ds d ≡ None → AreFaultless (ds ++ d ∷ []) }
{}

/// Proves that no configuration has two first faults.
pub fn every_first_fault_is_one()
    ensures { (c : Config) (f g : ConfigFault) → IsFirstFault c f → IsFirstFault c g → f ≡ g }
{}
