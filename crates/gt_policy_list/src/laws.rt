//! A law about the definition of a listing.
ghost use Rattle.std.specs.Prelude.{◌≡◌, ℕ, List, Ok};
ghost use Rattle.gt_policy.specs.Allowing.{Meaning};
ghost use Rattle.gt_policy.specs.Whole.{ReadsAs};
ghost use Rattle.gt_policy_list.specs.Writing.{IsListing};

use gt_policy::written_texts;

/// A law: a policy has only one listing.
pub fn one_listing()
    ensures { (bytes one other : List ℕ) (m : Meaning) →
        ReadsAs bytes (Ok m) → IsListing m one → IsListing m other → one ≡ other }
{
    written_texts();
}
