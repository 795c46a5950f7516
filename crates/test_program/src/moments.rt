//! Searches for moments of a script's run.
use gt_explore_search::Unwatched;
use gt_explore_states::{StateFinding, search_state};
use gt_script::parse_run;
use gt_state_claims::StateClaim;
use std::test::Fail;

// An owner grants a page and takes it back. Another domain maps it for reading, as far as it comes.
const RACE: &str = "triple mapper_t owner_t map_read\n\
triple mapper_t owner_t unmap\n\
domain 1 u:r:owner_t 8 1 1\n\
domain 2 u:r:mapper_t 8 1 1\n\
do 1 grant 0 page 2 ro 5\n\
tell 1 granted\n\
do 1 revoke 0 as back\n\
await 2 granted\n\
do 2 map page 1 0 ro as take\n\
do 2 unmap page\n";

#[test]
fn a_moment_is_found(rt: HostRuntime) -> Result<(), Fail> {
    let alloc = rt.alloc();
    let script = parse_run(alloc, RACE.as_bytes()).expect(&rt, "script");
    let claim = StateClaim::read(alloc, "1.0:page & 1.0:reads=1").expect(&rt, "claim");
    let search = search_state(alloc, &script, &claim, 1_000, &mut Unwatched).expect(&rt, "search");
    assert!(rt; matches!(search.finding, StateFinding::Found(_)));
    Ok(())
}

#[test]
fn there_is_no_moment(rt: HostRuntime) -> Result<(), Fail> {
    let alloc = rt.alloc();
    let script = parse_run(alloc, RACE.as_bytes()).expect(&rt, "script");
    let claim = StateClaim::read(alloc, "1.0:writes>0 | 1.0:invalid & 1.0:reads>0").expect(
        &rt, "claim",
    );
    let search = search_state(alloc, &script, &claim, 1_000, &mut Unwatched).expect(&rt, "search");
    assert!(rt; matches!(search.finding, StateFinding::Nowhere));
    Ok(())
}

#[test]
fn a_limit_leaves_a_search_undecided(rt: HostRuntime) -> Result<(), Fail> {
    let alloc = rt.alloc();
    let script = parse_run(alloc, RACE.as_bytes()).expect(&rt, "script");
    let claim = StateClaim::read(alloc, "1.0:writes>0").expect(&rt, "claim");
    let search = search_state(alloc, &script, &claim, 5, &mut Unwatched).expect(&rt, "search");
    assert!(rt; matches!(search.finding, StateFinding::Undecided));
    Ok(())
}
