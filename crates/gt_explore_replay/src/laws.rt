//! Laws that follow from the definitions of orders. Each is a function that does nothing, whose contract is the law.
ghost use Rattle.std.specs.Prelude.{ℕ, List};
ghost use Rattle.gt_script.specs.RunContents.{RunContents};
ghost use Rattle.gt_explore_replay.specs.Courses.{IsTurnedBy};
ghost use Rattle.gt_explore_replay.specs.Orders.{Happening, IsOrderOf};
ghost use Rattle.gt_explore_replay.specs.Releasing.{ReleasesAreOk};
ghost use Rattle.gt_explore_replay.specs.Walking.{HaveOwnIds};
ghost use Rattle.gt_explore_search.specs.declared.spaces.Turn.{Turn};

/// States that each order of a script's run has turns, if no two of its domains have the same number: by these turns
/// its domains move from the first lines of their lists to the ends, and print its text.
pub fn every_order_has_turns()
    ensures { (c : RunContents) (hs : List Happening) (text : List ℕ) → HaveOwnIds c.head.domains →
        IsOrderOf c hs text → (turns : List Turn) × IsTurnedBy c hs turns text }
{}

/// States that the core answers the release of a mapping Ok, whatever the policy. It refuses only a release of a handle
/// under which the domain has no mapping. So a domain that releases all its mappings at the end of its list keeps none.
pub fn every_release_is_ok()
    ensures { ReleasesAreOk }
{}
