//! The head of a script: what precedes its body.
ghost use Rattle.std.specs.Prelude.{◌≡◌, IfOk};

use crate::command::ScriptCommand;
use crate::types::TypeNames;
use gt_policy::Policy;
use gt_script_lines::Text;
use gt_types::{DomainConfig, Triple, TypeId};
use std::alloc::{AllocError, Global};
use std::marker::Model;

/// What precedes the body of a script: the rights and types, the first generation, and the domains. If there is a
/// policy block, the policy has the rights and types, and there are no triples.
#[derive(Drop)]
pub struct ScriptHead<'a> {
    pub(crate) command: ScriptCommand,
    pub(crate) policy: Option<Policy>,
    pub(crate) types: TypeNames<'a>,
    pub(crate) triples: Vec<Triple>,
    pub(crate) wear: Option<u32>,
    pub(crate) domains: Vec<DomainConfig>,
}

impl<'a> Model for ScriptHead<'a> {
    ghost use Rattle.gt_script.specs.Contents.{KeptContents};
    ghost use Rattle.std.specs.Prelude.{[]};

    ghost Value = { KeptContents };

    ghost view = { λ h. record {
      command = h.command;
      policy = h.policy;
      types = h.types;
      triples = h.triples.items;
      wear = h.wear;
      domains = h.domains.items;
      steps = [];
      tasks = [];
      flags = [];
    } };
}

// Lists the names of a policy's types, by their numbers.
fn names_of<'p>(alloc: Global, policy: &'p Policy) -> Result<Vec<Text<'p>>, AllocError>
    ensures { IfOk result (λ names. names.items ≡ policy.entry.now.types) }
{
    let mut names = Vec::new(alloc);
    'types: for id in 0..policy.count() {
        let Some(name) = policy.name(TypeId(id)) else {
            unreachable!();
        };
        names.push(Text::new(name.as_bytes()))?;
    }
    Ok(names)
}

fn copies<'a>(alloc: Global, names: &[Text<'a>]) -> Result<Vec<Text<'a>>, AllocError>
    ensures { IfOk result (λ copies. copies.items ≡ names.now) }
{
    let mut copies = Vec::new(alloc);
    'names: for name in names {
        copies.push(Text::new(name.as_bytes()))?;
    }
    Ok(copies)
}

impl<'a> ScriptHead<'a> {
    ghost use Rattle.std.specs.Option.{option_map};
    ghost use Rattle.gt_policy.specs.Kept.{allowed_of};
    ghost use Rattle.gt_script.specs.Contents.{contents_of, first_gen, starting, type_names};

    // Makes a head without lines, with the policy of its block if it has one.
    pub(crate) fn new(
        alloc: Global,
        command: ScriptCommand,
        policy: Option<Policy>,
    ) -> ScriptHead<'a>
        ensures { contents_of result ≡ starting command (option_map allowed_of policy) }
    {
        ScriptHead {
            command,
            policy,
            types: TypeNames::new(alloc),
            triples: Vec::new(alloc),
            wear: None,
            domains: Vec::new(alloc),
        }
    }

    /// Returns the names of the types, from the policy or from triples and labels. The index of a name is the number of
    /// its type.
    pub fn type_names(&self, alloc: Global) -> Result<Vec<Text<'_>>, AllocError>
        ensures { IfOk result (λ names. names.items ≡ type_names (contents_of self.now)) }
    {
        match &self.policy {
            Some(policy) => names_of(alloc, policy),
            None => copies(alloc, self.types.as_slice()),
        }
    }

    /// Returns the policy of the script's block, if it has one. Otherwise the triples are what is allowed.
    pub fn policy(&self) -> Option<&Policy>
        ensures { option_map (λ p. p.now) result ≡ self.now.policy }
    {
        self.policy.as_ref()
    }

    /// Returns the triples, in order.
    pub fn triples(&self) -> &[Triple]
        ensures { result.now ≡ self.now.triples }
    {
        self.triples.as_slice()
    }

    /// Returns the first generation of all entries, 0 to 1,048,575: that of the line `wear`, or 0.
    pub fn first_gen(&self) -> u32
        ensures { result ≡ first_gen (contents_of self.now) }
    {
        self.wear.unwrap_or(0)
    }

    /// Returns the domains of the run, in order.
    pub fn domains(&self) -> &[DomainConfig]
        ensures { result.now ≡ self.now.domains }
    {
        self.domains.as_slice()
    }
}
