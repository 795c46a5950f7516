//! Findings in a text: what is wrong or useless there.

/// The kind of a finding.
#[derive(Clone, Copy)]
pub enum FindingKind {
    /// The first fault of a text that is not a policy, or not a script; or a statement that breaks a neverallow
    /// statement.
    Fault,
    /// A class that Xen's FLASK policy does not have.
    OtherClass,
    /// Among several classes, a word that is not a permission of class `grant`.
    OtherPermission,
    /// A statement of class `grant` that allows nothing.
    AllowsNothing,
    /// The permission `transfer`, which no call asks for.
    NeverAsked,
    /// A statement that grants only what an earlier one grants.
    Repeats,
    /// A type that is in no set of an allow statement.
    NeverNamed,
    /// A type that no domain of the script has.
    NoDomain,
    /// A statement or a triple that grants nothing to the domains of the script.
    NeverMatters,
    /// A label of a script that no earlier map has.
    NeverMapped,
    /// A policy without a statement.
    NoStatement,
    /// A call of a script that is refused whatever comes before it.
    AlwaysRefused,
    /// A note on the error or warning before it.
    Note,
}

/// A finding. Lines and columns are counted from 1, columns in bytes.
#[derive(Drop)]
pub struct Finding {
    pub kind: FindingKind,
    pub line: u32,
    pub column: u32,
    pub message: Vec<u8>,
}
