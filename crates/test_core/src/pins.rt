//! As many pins on one entry as it can have, and the trace of a missed try.
use crate::doing::Doing::{Do, Often, Show};
use crate::doing::{OWNER, PEER, Row, add_call, add_ticks, rights, three_domains, trace_said};
use crate::runs::{DEMOTE, GRANT, GRANT_ANOTHER, MAP_RO, MAP_RW, REVOKE};
use gt_core::{Event, play};
use gt_types::{Memory, StartFault};
use std::alloc::{AllocError, Global};
use std::test::Fail;

/// A page that is mapped for reading as often as it can be.
pub const ALL_READ_PINS: [Row; 2] = [
    (Do(OWNER, GRANT), "ok"),
    (Often(PEER, MAP_RO, 4_095), "4095 handles, 0.0 and on"),
];

/// Then a write pin can be taken, and no read pin.
pub const BEHIND_ALL_READ_PINS: [Row; 5] = [
    (Do(PEER, MAP_RO), "N17 10002000fff1"),
    (
        Show(0),
        "Page { dom: DomId(2), ro: false, frame: 5 } gen=1 reads=4095 writes=0 status=8",
    ),
    (Do(PEER, MAP_RW), "ok 4095.4095"),
    (
        Show(0),
        "Page { dom: DomId(2), ro: false, frame: 5 } gen=1 reads=4095 writes=1 status=18",
    ),
    (Do(OWNER, DEMOTE), "N19 10002001fff1"),
];

/// Returns the trace of these events on a core of the three domains.
pub fn played(alloc: Global, events: &[Event<'_>]) -> Result<String, StartFault> {
    let trace = play(alloc, three_domains(alloc, 1)?, rights(alloc)?, events)?;
    match trace_said(alloc, &trace) {
        Ok(text) => Ok(text),
        Err(_) => Err(StartFault::Memory),
    }
}

// Returns the events of a grant, as many maps for reading as there can be, one for writing and a demotion.
fn events_of_pins(alloc: Global) -> Result<Vec<Event<'static>>, Memory> {
    let mut events = Vec::new(alloc);
    add_call(&mut events, OWNER, GRANT, 2)?;
    for _ in 0..4095 {
        add_call(&mut events, PEER, MAP_RO, 4)?;
    }
    add_call(&mut events, PEER, MAP_RW, 4)?;
    add_call(&mut events, OWNER, DEMOTE, 1)?;
    Ok(events)
}

// Returns their trace.
fn trace_of_pins(alloc: Global) -> Result<String, AllocError> {
    let mut wanted = String::from_str(alloc, "1 begins\n1 -\n1 taken ok\n")?;
    let mut word: u64 = 0x0000_1000_2000_0001;
    for i in 0..4095 {
        let map = format!(in alloc; "2 begins\n2 5\n2 {word:x}\n2 5\n2 taken ok {i}.{i}\n")?;
        wanted.push_str(map.as_str())?;
        word = word.wrapping_add(16);
    }
    wanted.push_str(
        "2 begins\n2 5\n2 10002000fff1\n2 5\n2 taken ok 4095.4095\n\
1 begins\n1 10002001fff1 N19 10002001fff1\n",
    )?;
    Ok(wanted)
}

#[test]
fn trace_of_all_read_pins_and_one_write_pin(rt: HostRuntime) -> Result<(), Fail> {
    let events = events_of_pins(rt.alloc())?;
    let wanted = trace_of_pins(rt.alloc())?;
    let text = played(rt.alloc(), events.as_slice())?;
    assert_eq!(rt; text.as_str(), wanted.as_str());
    Ok(())
}

// Another page is granted between the look and the pin of a map.
const MISSED: &str = "1 begins\n1 -\n1 taken ok\n\
2 begins\n2 5\n2 100020000001\n2 5\n\
1 begins\n1 taken ok\n\
1 begins\n1 -\n1 taken ok\n\
2 missed 200020000001\n2 200020000001\n2 6\n2 taken ok 0.0\n";

static MISSING: [Event; 16] = [
    Event::Begin(OWNER, GRANT),
    Event::Tick(OWNER),
    Event::Tick(OWNER),
    Event::Begin(PEER, MAP_RO),
    Event::Tick(PEER),
    Event::Tick(PEER),
    Event::Tick(PEER),
    Event::Begin(OWNER, REVOKE),
    Event::Tick(OWNER),
    Event::Begin(OWNER, GRANT_ANOTHER),
    Event::Tick(OWNER),
    Event::Tick(OWNER),
    Event::Tick(PEER),
    Event::Tick(PEER),
    Event::Tick(PEER),
    Event::Tick(PEER),
];

#[test]
fn trace_of_a_missed_try(rt: HostRuntime) -> Result<(), Fail> {
    let text = played(rt.alloc(), &MISSING)?;
    assert_eq!(rt; text.as_str(), MISSED);
    Ok(())
}
