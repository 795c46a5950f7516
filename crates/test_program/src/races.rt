//! Searches for the races of a script's run.
use gt_explore_races::{EventKind, path_to_race, search_races};
use gt_explore_search::Unwatched;
use gt_script::parse_run;
use std::test::Fail;

// An owner writes to its frame and reads it, and another domain does so through a mapping. The owner's last write comes
// after the flag `done`, and its reads before that.
const SHARED: &str = "triple user_t owner_t map_read\n\
triple user_t owner_t map_write\n\
triple user_t owner_t unmap\n\
domain 1 u:r:owner_t 4 1 1\n\
domain 2 u:r:user_t 4 1 1\n\
do 1 grant 0 page 2 rw 3\n\
do 1 poke 3 0 01c0ffee\n\
do 1 peek 3 2 1\n\
do 1 peek 3 100 1\n\
do 1 poke 3 101 01\n\
tell 1 done\n\
do 1 poke 3 8 01\n\
do 2 map page 1 0 rw\n\
do 2 load page 0 4\n\
do 2 store page 2 aa\n\
do 2 load page 100 1\n\
await 2 done\n\
do 2 load page 101 1\n\
do 2 load page 8 1\n";

#[test]
fn races_are_found(rt: HostRuntime) -> Result<(), Fail> {
    let alloc = rt.alloc();
    let script = parse_run(alloc, SHARED.as_bytes()).expect(&rt, "script");
    let search = search_races(alloc, &script, 1_000, &mut Unwatched).expect(&rt, "search");
    assert!(rt; search.whole);
    let races = search.races.as_slice();
    let wanted = [(7, 14), (7, 15), (8, 15), (12, 19)];
    assert!(rt; races.len() == wanted.len());
    for (first, second) in wanted {
        let listed = races
            .iter()
            .any(|race| race.first == first && race.second == second);
        assert!(rt; listed);
    }
    Ok(())
}

// Domain 1 has the smaller line of each race: the access of domain 2 comes last.
#[test]
fn each_race_has_a_path(rt: HostRuntime) -> Result<(), Fail> {
    let alloc = rt.alloc();
    let script = parse_run(alloc, SHARED.as_bytes()).expect(&rt, "script");
    let search = search_races(alloc, &script, 1_000, &mut Unwatched).expect(&rt, "search");
    for race in search.races.as_slice() {
        let path = path_to_race(alloc, &script, &search, *race).expect(&rt, "path");
        match path.events.as_slice().last() {
            Some(EventKind::Tick(dom)) => assert!(rt; dom.0 == 2),
            _ => assert!(rt; false, "the last event is a step"),
        }
    }
    Ok(())
}

#[test]
fn a_limit_leaves_races_undecided(rt: HostRuntime) -> Result<(), Fail> {
    let alloc = rt.alloc();
    let script = parse_run(alloc, SHARED.as_bytes()).expect(&rt, "script");
    let search = search_races(alloc, &script, 5, &mut Unwatched).expect(&rt, "search");
    assert!(rt; !search.whole);
    Ok(())
}
