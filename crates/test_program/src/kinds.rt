//! Texts of a script, one of each kind.
use gt_explore_kinds::{KindsFound, kinds_within};
use gt_explore_search::Unwatched;
use gt_explore_verdict::operations_of;
use gt_script::parse_run;
use std::alloc::Global;
use std::test::Fail;

// An owner writes to a page three times. Another domain reads it three times.
const READS: &str = "triple reader_t owner_t map_read\n\
triple reader_t owner_t unmap\n\
domain 1 u:r:owner_t 8 1 1\n\
domain 2 u:r:reader_t 8 1 1\n\
do 1 grant 0 page 2 ro 5\n\
tell 1 granted\n\
do 1 poke 5 0 01\n\
do 1 poke 5 0 02\n\
do 1 poke 5 0 03\n\
await 2 granted\n\
do 2 map h 1 0 ro\n\
do 2 load h 0 1\n\
do 2 load h 0 1\n\
do 2 load h 0 1\n\
do 2 unmap h\n";

// Returns a text of each kind for these expressions, if the search was whole.
fn found(alloc: Global, expressions: &[&str]) -> Option<KindsFound> {
    let script = parse_run(alloc, READS.as_bytes()).ok()?;
    let mut all = Vec::new(alloc);
    for expression in expressions {
        all.push(operations_of(alloc, expression).ok()?).ok()?;
    }
    let found = kinds_within(alloc, &script, all.as_slice(), 1_000, &mut Unwatched).ok()?;
    if found.whole { Some(found) } else { None }
}

#[test]
fn a_rule_that_no_answer_has_leaves_one_kind(rt: HostRuntime) -> Result<(), Fail> {
    let found = found(rt.alloc(), ["N18"].as_slice()).expect(&rt, "search");
    assert_eq!(rt; found.texts.len(), 1);
    Ok(())
}

#[test]
fn a_byte_makes_two_kinds(rt: HostRuntime) -> Result<(), Fail> {
    let found = found(rt.alloc(), ["12=ok 02"].as_slice()).expect(&rt, "search");
    assert_eq!(rt; found.texts.len(), 2);
    Ok(())
}

#[test]
fn several_expressions_share_a_search(rt: HostRuntime) -> Result<(), Fail> {
    let found = found(
        rt.alloc(),
        ["12=ok 02 & !13=ok 03", "13=ok 03 | N18"].as_slice(),
    )
    .expect(&rt, "search");
    assert_eq!(rt; found.texts.len(), 4);
    Ok(())
}
