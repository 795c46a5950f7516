//! The choices of a script, their texts, and what `explore` prints of them.
use gt_explore_answers::{ExploreFormat, ExploreOptions, ExploreRequest};
use gt_explore_by_choice::{explore_choices, texts_of_choices};
use gt_explore_choices::{ChoicePlace, ChoiceWord, choices_of, first_choice};
use gt_explore_search::Unwatched;
use gt_explore_verdict::Verdict;
use std::test::Fail;

// A domain whose list may end before its last call, which it may leave out.
const SOURCE: &str = "triple a_t a_t copy\n\
domain 1 u:r:a_t 8 1 1\n\
do 1 poke 0 0 2a\n\
leave 1\n\
maybe 1 peek 0 0 1\n";

// The script in which nothing is left out.
const WHOLE: &str = "triple a_t a_t copy\n\
domain 1 u:r:a_t 8 1 1\n\
do 1 poke 0 0 2a\n\
\n\
do    1 peek 0 0 1\n";

#[test]
fn a_script_has_choices(rt: HostRuntime) -> Result<(), Fail> {
    let alloc = rt.alloc();
    let place = ChoicePlace {
        line: 4,
        word: ChoiceWord::Leave,
    };
    assert_eq!(rt; first_choice(alloc, SOURCE)?, Some(place));
    let choices = choices_of(alloc, SOURCE).expect(&rt, "choices");
    assert_eq!(rt; choices.len(), 3);
    assert_eq!(rt; choices.text(alloc, 0)?.as_slice(), WHOLE.as_bytes());
    Ok(())
}

#[test]
fn choices_have_texts(rt: HostRuntime) -> Result<(), Fail> {
    let alloc = rt.alloc();
    let choices = choices_of(alloc, SOURCE).expect(&rt, "choices");
    let all = texts_of_choices(alloc, &choices, 1_000, &mut Unwatched).expect(&rt, "texts");
    assert_eq!(rt; all.found.texts.len(), 2);
    assert_eq!(rt; all.waiting, 0);
    Ok(())
}

#[test]
fn explore_prints_the_texts_of_choices(rt: HostRuntime) -> Result<(), Fail> {
    let alloc = rt.alloc();
    let asked = ExploreOptions {
        request: ExploreRequest::Texts,
        states: 1_000,
        format: ExploreFormat::Text,
    };
    let mut out = Vec::new(alloc);
    let verdict = explore_choices(alloc, &asked, SOURCE, &mut out, &mut Unwatched);
    assert!(rt; matches!(verdict, Ok(Verdict::Holds)));
    let texts = "text 1 of 2\n3 1 ok\ntext 2 of 2\n3 1 ok\n5 1 ok 2a\nstates ";
    assert!(rt; out.as_slice().starts_with(texts.as_bytes()));
    Ok(())
}
