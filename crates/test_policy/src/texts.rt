//! Texts that several of the tests use.
use std::alloc::{AllocError, Global};

/// Two types of one attribute, of which a set excludes one, next to `self`.
pub const TAKEN_OUT: &str = "attribute s;\n\
type a_t, s;\n\
type b_t;\n\
typeattribute b_t s;\n\
allow s { self -a_t b_t }:{ grant file } { copy open };\n";

/// Two types of one attribute, of which a source set excludes one.
pub const GUESTS: &str = "attribute domain;\n\
type dom0_t, domain;\n\
type domU_t, domain;\n\
allow { domain -dom0_t } domain:grant { map_read copy };\n";

/// Makes this number of declarations, one per line.
pub fn declarations(alloc: Global, word: &str, count: u32) -> Result<String, AllocError> {
    let mut text = String::new(alloc);
    for i in 0..count {
        let line = format!(in alloc; "{word} n{i};\n")?;
        text.push_str(line.as_str())?;
    }
    Ok(text)
}
