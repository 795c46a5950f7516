//! The labels of a witness. They are those of its script. But if a domain still has the mapping that a label names when
//! the label is given to another mapping, the other is named after its line too. So each mapping can be unmapped at the
//! end of a list.
use gt_handles::Handle;
use gt_script_lines::ScriptCall;
use gt_text::{push_number, push_text};
use std::alloc::{AllocError, Global};

// The name of a mapping in a witness.
#[derive(Drop)]
struct MappingName {
    place: usize,
    serial: u64,
    name: Vec<u8>,
}

// The name that a label of a domain has in a witness, since a map with it was answered or begun.
#[derive(Drop)]
struct LabelName {
    place: usize,
    label: Vec<u8>,
    name: Vec<u8>,
}

/// The labels of a witness so far. A domain is known by its position in the script.
#[derive(Drop)]
pub struct WitnessNames {
    alloc: Global,
    mappings: Vec<MappingName>,
    labels: Vec<LabelName>,
    begun: Vec<LabelName>,
}

// Returns the name of a label of this domain.
fn name_among<'n>(names: &'n [LabelName], place: usize, label: &[u8]) -> Option<&'n [u8]> {
    for name in names.iter().rev() {
        if name.place == place && name.label.as_slice() == label {
            return Some(name.name.as_slice());
        }
    }
    None
}

// Returns the label with which this domain began its last map.
fn last_begun(begun: &[LabelName], place: usize) -> Option<&LabelName> {
    for name in begun.iter().rev() {
        if name.place == place {
            return Some(name);
        }
    }
    None
}

// Adds a label of this domain, with its name.
fn push_label(
    alloc: Global,
    labels: &mut Vec<LabelName>,
    place: usize,
    label: &[u8],
    name: &[u8],
) -> Result<(), AllocError> {
    let label = Vec::from_slice(alloc, label)?;
    let name = Vec::from_slice(alloc, name)?;
    labels.push(LabelName { place, label, name })?;
    Ok(())
}

/// Returns the label of a call, if it has one.
pub fn label_of<'a>(call: &ScriptCall<'a>) -> Option<&'a [u8]> {
    match call {
        ScriptCall::Map { label, .. }
        | ScriptCall::Unmap { label }
        | ScriptCall::Load { label, .. }
        | ScriptCall::Store { label, .. } => Some(label.as_bytes()),
        _ => None,
    }
}

impl WitnessNames {
    /// Makes the labels of a witness that has no calls yet.
    pub fn new(alloc: Global) -> WitnessNames {
        WitnessNames {
            alloc,
            mappings: Vec::new(alloc),
            labels: Vec::new(alloc),
            begun: Vec::new(alloc),
        }
    }

    // Returns whether the domain, which has these mappings, has one of this name.
    fn is_taken(&self, place: usize, held: &[Handle], name: &[u8]) -> bool {
        for handle in held {
            if self.mapping(place, handle.serial) == Some(name) {
                return true;
            }
        }
        false
    }

    // Returns the name of the mapping with this serial.
    fn mapping(&self, place: usize, serial: u64) -> Option<&[u8]> {
        for mapping in self.mappings.as_slice() {
            if mapping.place == place && mapping.serial == serial {
                return Some(mapping.name.as_slice());
            }
        }
        None
    }

    /// Returns the name of the mapping of a domain at this index of those that it has.
    pub fn held(&self, place: usize, held: &[Handle], index: usize) -> Option<&[u8]> {
        let handle = held.get(index)?;
        self.mapping(place, handle.serial)
    }

    // Makes a name for a mapping with this label: the label, and the line too if it is the name of another.
    fn free_name(
        &self,
        place: usize,
        held: &[Handle],
        line: usize,
        label: &[u8],
    ) -> Result<Vec<u8>, AllocError> {
        let mut name = Vec::from_slice(self.alloc, label)?;
        if self.is_taken(place, held, label) {
            push_text(&mut name, "_")?;
            push_number(&mut name, line)?;
        }
        Ok(name)
    }

    // Returns the name of the label of a map that begins at this line.
    fn begin_map(
        &mut self,
        place: usize,
        held: &[Handle],
        line: usize,
        label: &[u8],
    ) -> Result<Vec<u8>, AllocError> {
        let name = self.free_name(place, held, line, label)?;
        push_label(self.alloc, &mut self.begun, place, label, name.as_slice())?;
        Ok(name)
    }

    // Returns the name of the label of another call.
    fn name_of(&self, place: usize, label: &[u8]) -> Result<Vec<u8>, AllocError> {
        let name = name_among(self.labels.as_slice(), place, label);
        Vec::from_slice(self.alloc, name.unwrap_or(label))
    }

    /// Returns the name of the label of a call that begins at this line. The domain has these mappings.
    pub fn begin_call(
        &mut self,
        place: usize,
        held: &[Handle],
        line: usize,
        call: &ScriptCall<'_>,
    ) -> Result<Option<Vec<u8>>, AllocError> {
        let Some(label) = label_of(call) else {
            return Ok(None);
        };
        let name = if matches!(call, ScriptCall::Map { .. }) {
            self.begin_map(place, held, line, label)?
        } else {
            self.name_of(place, label)?
        };
        Ok(Some(name))
    }

    /// Names the mapping that a domain has got, if it has more than this number.
    pub fn note(&mut self, place: usize, held: &[Handle], before: usize) -> Result<(), AllocError> {
        let Some(handle) = held.get(before) else {
            return Ok(());
        };
        let Some(begun) = last_begun(self.begun.as_slice(), place) else {
            return Ok(());
        };
        let name = Vec::from_slice(self.alloc, begun.name.as_slice())?;
        self.mappings.push(MappingName {
            place,
            serial: handle.serial,
            name,
        })?;
        push_label(
            self.alloc,
            &mut self.labels,
            place,
            begun.label.as_slice(),
            begun.name.as_slice(),
        )
    }
}
