//! The names of the types, numbered as they first appear.
ghost use Rattle.std.specs.Prelude.{◌≡◌, position};
ghost use Rattle.std.specs.Str.{bytes_eq};

use crate::faults::{AddError, ScriptFaultKind};
use gt_script_lines::Text;
use gt_types::TypeId;
use std::alloc::Global;
use std::marker::Model;

/// The maximum number of types of a run.
pub const MOST_TYPES: usize = 256;

/// The names of the types, each once. The number of a type is the index of its name.
#[derive(Drop)]
pub struct TypeNames<'a> {
    names: Vec<Text<'a>>,
}

impl<'a> Model for TypeNames<'a> {
    ghost use Rattle.std.specs.Prelude.{ℕ, List, ◌≤◌, length};

    ghost Value = { List (List ℕ) };

    ghost view = { λ types. types.names.items };

    ghost invariant = { λ types. length types.names.items ≤ 256 };
}

fn position_of(names: &[Text], name: &[u8]) -> Option<usize>
    ensures { result ≡ position (λ t. bytes_eq t name.now) names.now }
{
    names.iter().position(|t| t.as_bytes() == name)
}

impl<'a> TypeNames<'a> {
    ghost use Rattle.std.specs.Prelude.{[]};
    ghost use Rattle.gt_script.specs.Types.{GivesNumber};

    /// Makes an empty list of names.
    pub fn new(alloc: Global) -> TypeNames<'a>
        ensures { result ≡ [] }
    {
        TypeNames {
            names: Vec::new(alloc),
        }
    }

    /// Returns the names, by their numbers.
    pub fn as_slice(&self) -> &[Text<'a>]
        ensures { result.now ≡ self.now }
    {
        self.names.as_slice()
    }

    /// Returns the number of a type, which is added if it is new; the fault `config` if it would be the 257th.
    #[tactic(auto, unfolding(crate::specs::Types::with_type_name))]
    pub fn number(&mut self, name: &'a [u8]) -> Result<TypeId, AddError>
        ensures { GivesNumber self.old self.new name.entry.now result }
    {
        if let Some(at) = position_of(&self.names, name) {
            return Ok(TypeId(at as u16));
        }
        let count = self.names.len();
        if count >= MOST_TYPES {
            return Err(AddError::Fault(ScriptFaultKind::Config));
        }
        self.names.push(Text::new(name))?;
        Ok(TypeId(count as u16))
    }
}
