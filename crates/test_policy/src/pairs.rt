//! Which pairs of types are allowed, by their lines and numbers.
use crate::compare::same;
use gt_policy_questions::{PairsQuestion, pairs};
use gt_types::Perms;
use std::alloc::Global;

const POLICY: &str = "attribute guest;
type driver_t;
type a_t, guest;
type b_t, guest;
allow driver_t a_t:grant { map_read copy };
allow guest self:grant setup;
";

// Returns the two numbers and the lines for a question.
fn answered<'a>(
    alloc: Global,
    source: Option<&'a str>,
    target: Option<&'a str>,
    perm: Option<Perms>,
) -> Option<(usize, usize, Vec<u8>)> {
    let question = PairsQuestion {
        source,
        target,
        perm,
    };
    match pairs(alloc, POLICY, &question) {
        Ok(report) => Some((report.allowed, report.pairs, report.lines)),
        Err(_) => None,
    }
}

// Returns whether these are the numbers and the lines.
fn is(answer: Option<(usize, usize, Vec<u8>)>, allowed: usize, pairs: usize, lines: &str) -> bool {
    match answer {
        Some((found, all, text)) => {
            found == allowed && all == pairs && text.as_slice() == lines.as_bytes()
        }
        None => false,
    }
}

#[test]
fn an_attribute_asks_for_each_of_its_types(rt: HostRuntime) {
    let answer = answered(
        rt.alloc(),
        Some("driver_t"),
        Some("guest"),
        Some(Perms::COPY),
    );
    let lines = "driver_t a_t allowed\ndriver_t b_t denied\n";
    same(&rt, &is(answer, 1, 2, lines), &true);
}

#[test]
fn no_name_asks_for_each_type_and_permission(rt: HostRuntime) {
    let answer = answered(rt.alloc(), None, Some("a_t"), None);
    let lines = "driver_t a_t allowed\na_t a_t allowed\nb_t a_t denied\n";
    same(&rt, &is(answer, 2, 3, lines), &true);
}

#[test]
fn an_unknown_name_has_no_pairs(rt: HostRuntime) {
    let answer = answered(rt.alloc(), Some("nobody_t"), None, None);
    same(&rt, &is(answer, 0, 0, ""), &true);
}
