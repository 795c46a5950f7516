//! The meaning of a line.
ghost use Rattle.std.specs.Prelude.{◌≡◌, map};
ghost use Rattle.gt_script_lines.specs.Lines.{triple_of, wear_of, domain_line_of, line_of};

use crate::body::{BodyLine, read_body_line};
use crate::fields::{generation, is_word, label_type, name};
use crate::numbers::{Number, decimal};
use crate::texts::Text;
use gt_types::Perms;

/// `triple SOURCE TARGET PERMISSION`: the source type has the permission on the target type.
#[derive(Drop)]
pub struct TripleLine<'a> {
    pub source: Text<'a>,
    pub target: Text<'a>,
    pub perm: Perms,
}

/// `domain ID USER:ROLE:TYPE FRAMES TABLEFRAMES VERSION`, with numbers of any size.
#[derive(Drop)]
pub struct DomainLine<'a> {
    pub id: Number,
    pub type_name: Text<'a>,
    pub frames: Number,
    pub table_frames: Number,
    pub version: Number,
}

/// A line of a script.
#[derive(Drop)]
pub enum ScriptLine<'a> {
    Triple(TripleLine<'a>),
    /// `wear N`: the first generation of all entries.
    Wear(u32),
    Domain(DomainLine<'a>),
    /// A line of the body: its domain, by a number of any size, and the rest.
    Body { id: Number, asks: BodyLine<'a> },
}

#[tactic(auto, unfolding(crate::specs::Lines::triple_of))]
fn read_triple<'a>(args: &[&'a [u8]]) -> Option<TripleLine<'a>>
    ensures { result ≡ triple_of (map (λ word. word.now) args.now) }
{
    match args {
        [source, target, perm] => Some(TripleLine {
            source: name(source)?,
            target: name(target)?,
            perm: Perms::named(perm)?,
        }),
        _ => None,
    }
}

#[tactic(auto, unfolding(crate::specs::Lines::wear_of))]
fn read_wear(args: &[&[u8]]) -> Option<u32>
    ensures { result ≡ wear_of (map (λ word. word.now) args.now) }
{
    match args {
        [first] => generation(first),
        _ => None,
    }
}

#[tactic(auto, unfolding(crate::specs::Lines::domain_line_of))]
fn read_domain<'a>(args: &[&'a [u8]]) -> Option<DomainLine<'a>>
    ensures { result ≡ domain_line_of (map (λ word. word.now) args.now) }
{
    match args {
        [id, label, frames, table_frames, version] => Some(DomainLine {
            id: decimal(id)?,
            type_name: label_type(label)?,
            frames: decimal(frames)?,
            table_frames: decimal(table_frames)?,
            version: decimal(version)?,
        }),
        _ => None,
    }
}

/// Reads a line of a script; None if the words are not one.
#[tactic(auto, unfolding(crate::specs::Lines::body_of))]
pub fn read_line<'a>(words: &[&'a [u8]]) -> Option<ScriptLine<'a>>
    ensures { result ≡ line_of (map (λ word. word.now) words.now) }
{
    let (word, args) = words.split_first()?;
    if is_word(word, "triple") {
        Some(ScriptLine::Triple(read_triple(args)?))
    } else if is_word(word, "wear") {
        Some(ScriptLine::Wear(read_wear(args)?))
    } else if is_word(word, "domain") {
        Some(ScriptLine::Domain(read_domain(args)?))
    } else {
        let (id, rest) = args.split_first()?;
        Some(ScriptLine::Body {
            id: decimal(id)?,
            asks: read_body_line(word, rest)?,
        })
    }
}
