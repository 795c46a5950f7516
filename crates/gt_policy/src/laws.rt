//! Laws about the definitions of the language.
ghost use Rattle.std.specs.Prelude.{◌≡◌, ◌<◌, ◌⊎◌, ◌&&◌, List, ℕ, Result, Ok, Err, Some, length};
ghost use Rattle.gt_policy.specs.Accepting.{IsWritten, IsBroken, meant_by};
ghost use Rattle.gt_policy.specs.Allowing.{Meaning, type_named, is_allowed, lists_perm};
ghost use Rattle.gt_policy.specs.Grammar.{at};
ghost use Rattle.gt_policy.specs.Granting.{is_granted, lists_word};
ghost use Rattle.gt_policy.specs.Resolving.{granted, has_grant};
ghost use Rattle.gt_policy.specs.Undeclared.{AreDeclared, IsFirstUndeclared, uses_of};
ghost use Rattle.gt_policy.specs.Whole.{ReadsAs};
ghost use Rattle.gt_policy.specs.declared.fault.TokenFault.{TokenFault};
ghost use Rattle.gt_policy.specs.declared.fault.TokenFaultKind.{TokenFaultKind};
ghost use Rattle.gt_policy.specs.declared.statements.Permissions.{Permissions};
ghost use Rattle.gt_policy.specs.declared.statements.Statement.{Statement};
ghost use Rattle.gt_types.specs.declared.TypeId.{TypeId};
ghost use Rattle.gt_types.specs.Names.{permission_of};
ghost use Rattle.gt_types.specs.declared.perms.Perms.{Perms};

use gt_types::{LONGEST_TEXT, the_permissions};

/// A law: every text is a policy or has a fault.
pub fn every_text_has_a_meaning()
    ensures { (text : List ℕ) → (said : Result Meaning TokenFault) × ReadsAs text said }
{}

/// A law: no text has two meanings, two faults, or one of each.
pub fn one_meaning()
    ensures { (text : List ℕ) (one other : Result Meaning TokenFault) →
        ReadsAs text one → ReadsAs text other → one ≡ other }
{}

/// A law: a text is a policy exactly if clean statements whose names are all declared spell its tokens. It then means
/// what these statements mean.
pub fn written_texts()
    ensures accepted { (text : List ℕ) (m : Meaning) → ReadsAs text (Ok m) →
        (ss : List Statement) × IsWritten text ss × AreDeclared ss × (meant_by ss ≡ Ok m) }
    ensures written { (text : List ℕ) (ss : List Statement) →
        IsWritten text ss → ReadsAs text (meant_by ss) }
    ensures meant { (text : List ℕ) (ss : List Statement) →
        IsWritten text ss → AreDeclared ss → (m : Meaning) × (meant_by ss ≡ Ok m) }
{}

/// A law: the fault of a text is one of three. The text is too long. Or it is the fault of the first malformed
/// statement. Or all statements are clean, and it is the fault of the first name that is not declared as it has to be.
pub fn first_faults()
    ensures faulty { (text : List ℕ) (f : TokenFault) → ReadsAs text (Err f) →
        ((LONGEST_TEXT < length text) × (at 1 TokenFaultKind.Limit ≡ f))
        ⊎ (IsBroken text f
        ⊎ ((ss : List Statement) × IsWritten text ss × IsFirstUndeclared ss (uses_of ss) f)) }
    ensures broken { (text : List ℕ) (f : TokenFault) → IsBroken text f → ReadsAs text (Err f) }
    ensures undeclared { (text : List ℕ) (ss : List Statement) (f : TokenFault) →
        IsWritten text ss → IsFirstUndeclared ss (uses_of ss) f → ReadsAs text (Err f) }
{}

/// A law: a policy allows what the statements of its text grant, by the names in them. Some allow statement whose
/// classes include `grant` lists the permission or `*`. Its source set holds the source, and its target set holds the
/// target, or contains `self` and the two are one. The bits that a statement grants are those of the words that it
/// lists.
pub fn granted_by_statements()
    ensures allowed { (ss : List Statement) (m : Meaning) (s t w : List ℕ) (i j : TypeId) (perm : Perms) →
        meant_by ss ≡ Ok m → type_named m.types s ≡ Some i → type_named m.types t ≡ Some j →
        permission_of w ≡ Some perm → is_allowed m i.0 j.0 perm ≡ is_granted ss s t w }
    ensures listed { (classes : List (List ℕ)) (perms : Permissions) (w : List ℕ) (perm : Perms) →
        permission_of w ≡ Some perm →
        lists_perm (granted classes perms) perm ≡ (has_grant classes && lists_word perms w) }
{
    the_permissions();
}
