//! Paths of bytes in chains of types: their lengths, and which pairs have one.
use crate::compare::same;
use gt_policy_questions::{FlowAnswer, FlowFormat, FlowQuestion, flow};
use std::alloc::{AllocError, Global};

// Returns a policy of this number of types, t0 and on, of which each one may load from the one before it.
fn chain(alloc: Global, types: usize) -> Result<String, AllocError> {
    let mut text = String::new(alloc);
    for i in 0..types {
        let line = format!(in alloc; "type t{i};\n")?;
        text.push_str(line.as_str())?;
    }
    for i in 1..types {
        let line = format!(in alloc; "allow t{i} t{}:grant map_read;\n", i.wrapping_sub(1))?;
        text.push_str(line.as_str())?;
    }
    Ok(text)
}

// Returns an answer in words.
fn words_of(answer: FlowAnswer) -> &'static str {
    match answer {
        FlowAnswer::Path => "path",
        FlowAnswer::NoPath => "no path",
        FlowAnswer::NoSource => "no source",
        FlowAnswer::NoTarget => "no target",
        FlowAnswer::NoTrusted(_) => "no trusted type",
    }
}

// Returns the answer in words, and the number of lines, for two types of a policy.
fn asked_of<'a>(
    alloc: Global,
    text: &'a str,
    source: &'a str,
    target: &'a str,
) -> Option<(&'static str, usize)> {
    let question = FlowQuestion {
        source: Some(source),
        target: Some(target),
        trusted: None,
        format: FlowFormat::Text,
    };
    match flow(alloc, text, &question) {
        Ok(report) => Some((
            words_of(report.answer),
            report.lines.iter().filter(|byte| **byte == b'\n').count(),
        )),
        Err(_) => None,
    }
}

// Returns the same for two types of a chain.
fn asked(
    alloc: Global,
    types: usize,
    source: usize,
    target: usize,
) -> Result<Option<(&'static str, usize)>, AllocError> {
    let text = chain(alloc, types)?;
    let source = format!(in alloc; "t{source}")?;
    let target = format!(in alloc; "t{target}")?;
    Ok(asked_of(alloc, text.as_str(), source.as_str(), target.as_str()))
}

#[test]
fn a_path_is_as_long_as_its_chain(rt: HostRuntime) {
    for types in [2, 3, 17, 256] {
        let last = types - 1;
        let forth = asked(rt.alloc(), types, 0, last);
        same(&rt, &forth, &Ok(Some(("path", types))));
        let back = asked(rt.alloc(), types, last, 0);
        same(&rt, &back, &Ok(Some(("no path", 1))));
    }
}

#[test]
fn a_type_that_is_not_there_has_no_answer(rt: HostRuntime) {
    same(
        &rt,
        &asked(rt.alloc(), 2, 2, 0),
        &Ok(Some(("no source", 0))),
    );
    same(
        &rt,
        &asked(rt.alloc(), 2, 0, 2),
        &Ok(Some(("no target", 0))),
    );
}
