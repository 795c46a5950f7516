//! Verdicts on a claim about texts.
ghost use Rattle.std.specs.Prelude.{◌≡◌};
ghost use Rattle.gt_explore_verdict.specs.Judging.{judged, shows, verdict_at};
ghost use Rattle.std.specs.List.{position};

/// A claim about the texts of a script: that some text satisfies the conditions, that none does, or that each does.
#[derive(Clone, Copy, PartialEq, Eq)]
pub enum Claim {
    Find,
    Never,
    Always,
}

/// What is known of a claim.
#[derive(Clone, Copy, Debug, PartialEq, Eq)]
pub enum Verdict {
    /// It holds.
    Holds,
    /// It does not hold.
    Fails,
    /// Not all texts are known, and those that are do not decide it.
    Undecided,
}

/// A verdict, and the index of the first text that shows it: of one that satisfies the conditions for `Find` and
/// `Never`, of one that does not for `Always`. `None` if only all texts together decide, or nothing does.
#[derive(Clone, Copy)]
pub struct Judgement {
    pub verdict: Verdict,
    pub shown_by: Option<usize>,
}

// Returns whether a text decides a claim, by whether it satisfies the conditions.
fn shows(claim: Claim, satisfied: bool) -> bool
    ensures { result ≡ shows claim satisfied }
{
    match claim {
        Claim::Find | Claim::Never => satisfied,
        Claim::Always => !satisfied,
    }
}

// Returns the index of the first text that decides a claim.
fn first_shown(claim: Claim, satisfied: &[bool]) -> Option<usize>
    ensures { result ≡ position (shows claim) satisfied.now }
{
    satisfied.iter().position(|b| shows(claim, *b))
}

/// Returns the verdict, by whether a text decides the claim and whether all texts are known.
pub fn verdict_at(claim: Claim, is_shown: bool, whole: bool) -> Verdict
    ensures { result ≡ verdict_at claim is_shown whole }
{
    match (claim, is_shown, whole) {
        (Claim::Find, true, _) => Verdict::Holds,
        (Claim::Never | Claim::Always, true, _) => Verdict::Fails,
        (Claim::Find, false, true) => Verdict::Fails,
        (Claim::Never | Claim::Always, false, true) => Verdict::Holds,
        (_, false, false) => Verdict::Undecided,
    }
}

/// Returns what is known of a claim about texts, by whether each of those found satisfies the conditions, and whether
/// all are found. If they are not, only a text that decides the claim decides it.
pub fn judge(claim: Claim, satisfied: &[bool], whole: bool) -> Judgement
    ensures { result ≡ judged claim satisfied.now whole }
{
    let shown_by = first_shown(claim, satisfied);
    let verdict = verdict_at(claim, shown_by.is_some(), whole);
    Judgement { verdict, shown_by }
}
