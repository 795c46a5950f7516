//! The types of the domains of a script.
use gt_fault_reasons::has_policy;
use gt_script_lines::{ScriptLine, line_words, read_line};
use gt_text::text_of;
use std::alloc::{AllocError, Global};

/// Returns the index of the first line after the policy block; 0 if there is none.
pub(crate) fn body_start(alloc: Global, lines: &[&str]) -> Result<usize, AllocError> {
    if !has_policy(alloc, lines)? {
        return Ok(0);
    }
    for (i, line) in lines.iter().enumerate() {
        let words = line_words(alloc, line)?;
        if let [word] = words.as_slice() {
            if *word == b"end".as_slice() {
                return Ok(i + 1);
            }
        }
    }
    Ok(lines.len())
}

/// Returns the types of the lines `domain`.
pub(crate) fn worn_types<'t>(alloc: Global, lines: &[&'t str]) -> Result<Vec<&'t str>, AllocError> {
    let mut names = Vec::new(alloc);
    for line in lines {
        let words = line_words(alloc, *line)?;
        if let Some(ScriptLine::Domain(domain)) = read_line(words.as_slice()) {
            if let Ok(name) = text_of(domain.type_name.as_bytes()) {
                names.push(name)?;
            }
        }
    }
    Ok(names)
}
