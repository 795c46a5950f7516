//! A `neverallow` or `neverflow` statement, as it is written.
use gt_policy::{Items, Permissions, SetElement, TextPiece};

/// The types of a source or a target.
#[derive(Drop)]
pub enum TypeChoice<'a> {
    /// `*`: every type.
    Every,
    /// The types that a set holds, as in an allow statement.
    Of(Items<SetElement<'a>>),
    /// `~` and a set: the types that the set does not hold.
    But(Items<SetElement<'a>>),
}

/// What a statement forbids its sources on its targets.
#[derive(Drop)]
pub enum Forbidden<'a> {
    /// `neverallow`: permissions of classes.
    Grants {
        classes: Items<TextPiece<'a>>,
        perms: Permissions<'a>,
    },
    /// `neverflow`: that bytes of a source reach a target.
    Flow,
}

/// A `neverallow` or `neverflow` statement, with the line of its first token, counted from 1.
#[derive(Drop)]
pub struct NeverStatement<'a> {
    pub line: u32,
    pub source: TypeChoice<'a>,
    pub target: TypeChoice<'a>,
    pub what: Forbidden<'a>,
}
