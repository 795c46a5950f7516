//! The lines of the body, after their domain.
ghost use Rattle.std.specs.Prelude.{◌≡◌, map};
ghost use Rattle.gt_script_lines.specs.Body.{tick_of, flag_of, flag_line_of, body_line_of};

use crate::call_names::split_name;
use crate::calls::{ScriptCall, only_reference, read_call};
use crate::fields::{label, tick_count};
use crate::texts::Text;
use gt_types::GrantRef;

/// A line of the body, after its domain. A flag has the form of a label.
#[derive(Drop)]
pub enum BodyLine<'a> {
    /// `do ID CALL [as NAME]`: makes the call from its beginning to its answer.
    Do(ScriptCall<'a>),
    /// `begin ID CALL [as NAME]`: begins the call.
    Begin(ScriptCall<'a>),
    /// `tick ID N`: makes up to N steps, 1 to 100,000, of the open call of the domain.
    Tick(u32),
    /// `show ID REF`: prints a line about the entry, and changes nothing.
    Show(GrantRef),
    /// `tell ID FLAG`: the domain raises the flag.
    Tell(Text<'a>),
    /// `await ID FLAG`: the domain continues when some domain has raised the flag.
    Await(Text<'a>),
}

#[tactic(auto, unfolding(crate::specs::Body::tick_of))]
fn read_tick(args: &[&[u8]]) -> Option<u32>
    ensures { result ≡ tick_of (map (λ word. word.now) args.now) }
{
    match args {
        [count] => tick_count(count),
        _ => None,
    }
}

#[tactic(auto, unfolding(crate::specs::Body::flag_of))]
fn read_flag<'a>(args: &[&'a [u8]]) -> Option<Text<'a>>
    ensures { result ≡ flag_of (map (λ word. word.now) args.now) }
{
    match args {
        [flag] => label(flag),
        _ => None,
    }
}

#[tactic(auto, unfolding(crate::specs::Body::flag_line_of))]
fn read_flag_line<'a>(word: &[u8], args: &[&'a [u8]]) -> Option<BodyLine<'a>>
    ensures { result ≡ flag_line_of word.now (map (λ word. word.now) args.now) }
{
    match word {
        b"tell" => Some(BodyLine::Tell(read_flag(args)?)),
        b"await" => Some(BodyLine::Await(read_flag(args)?)),
        _ => None,
    }
}

/// Reads a line of the body by its first word and the words after its domain; None if they are not one. A call may have
/// a name, which is not part of it.
#[tactic(auto, unfolding(crate::specs::Body::body_line_of))]
pub fn read_body_line<'a>(word: &[u8], args: &[&'a [u8]]) -> Option<BodyLine<'a>>
    ensures { result ≡ body_line_of word.now (map (λ word. word.now) args.now) }
{
    match word {
        b"do" => Some(BodyLine::Do(read_call(split_name(args).0)?)),
        b"begin" => Some(BodyLine::Begin(read_call(split_name(args).0)?)),
        b"tick" => Some(BodyLine::Tick(read_tick(args)?)),
        b"show" => Some(BodyLine::Show(only_reference(args)?)),
        _ => read_flag_line(word, args),
    }
}
