//! The texts of two counters.
use crate::counters::Counters;
use gt_explore_search::{SearchResult, Unwatched, search, search_within};
use std::test::Fail;

// Returns whether an order has this text.
fn has(found: &SearchResult, text: &[u8]) -> bool {
    for order in found.orders.as_slice() {
        if order.text.as_slice() == text {
            return true;
        }
    }
    false
}

// If both count up to two, the first counter's lines rise from 0 to 2: there are six such texts, and nine states.
#[test]
fn each_text_of_two_counters_is_found(rt: HostRuntime) -> Result<(), Fail> {
    let alloc = rt.alloc();
    let counters = Counters { alloc, limit: 2 };
    let Ok(found) = search(alloc, &counters, 9) else {
        assert!(rt; false);
        return Ok(());
    };
    assert_eq!(rt; found.states, 9);
    assert_eq!(rt; found.orders.len(), 6);
    assert!(rt; has(&found, &[0, 0]));
    assert!(rt; has(&found, &[0, 1]));
    assert!(rt; has(&found, &[0, 2]));
    assert!(rt; has(&found, &[1, 1]));
    assert!(rt; has(&found, &[1, 2]));
    assert!(rt; has(&found, &[2, 2]));
    Ok(())
}

#[test]
fn one_state_less_is_too_few(rt: HostRuntime) -> Result<(), Fail> {
    let alloc = rt.alloc();
    let counters = Counters { alloc, limit: 2 };
    assert!(rt; search(alloc, &counters, 8).is_err());
    Ok(())
}

// The limit of a search in states, how many texts it finds, and how many states were on the way to the last one.
const WITHIN: [(usize, usize, usize); 5] = [(8, 6, 3), (7, 5, 2), (5, 2, 3), (4, 1, 5), (3, 0, 4)];

// Within fewer states some of the six texts are found, and each that is found is one of them.
#[test]
fn some_texts_are_found_within_fewer_states(rt: HostRuntime) -> Result<(), Fail> {
    let alloc = rt.alloc();
    let counters = Counters { alloc, limit: 2 };
    let Ok(all) = search_within(alloc, &counters, 9, &mut Unwatched) else {
        assert!(rt; false);
        return Ok(());
    };
    assert!(rt; all.whole);
    assert_eq!(rt; (all.found.orders.len(), all.depth), (6, 0));
    for (limit, texts, depth) in WITHIN {
        let Ok(some) = search_within(alloc, &counters, limit, &mut Unwatched) else {
            assert!(rt; false);
            return Ok(());
        };
        assert_eq!(rt; (some.whole, some.found.states), (false, limit));
        assert_eq!(rt; (some.found.orders.len(), some.depth), (texts, depth));
        for order in some.found.orders.as_slice() {
            assert!(rt; has(&all.found, order.text.as_slice()));
        }
    }
    Ok(())
}

// Each counter prints only its own values: there is one text, and seven states are enough of 16.
#[test]
fn the_one_text_of_counters_that_are_apart(rt: HostRuntime) -> Result<(), Fail> {
    let alloc = rt.alloc();
    let counters = crate::apart::Apart { alloc, limit: 3 };
    let Ok(found) = search(alloc, &counters, 9) else {
        assert!(rt; false);
        return Ok(());
    };
    assert_eq!(rt; found.states, 7);
    assert_eq!(rt; found.orders.len(), 1);
    assert!(rt; has(&found, &[0, 1, 2, 0, 1, 2]));
    Ok(())
}
