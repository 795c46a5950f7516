//! The lines of worked calls.
use gt_audit::{Hypercall, Record, Reply, line, push_lost};
use gt_types::{
    DOMID_SELF, Denial, DomId, End, Facts, Field, GrantRef, Memory, Perms, Rule, Size, TypeId,
};
use std::alloc::{AllocError, Global};
use std::process::Abort;
use std::test::Fail;

// The answer of a call.
#[derive(Clone, Copy)]
enum Said {
    With(Reply),
    Refused(Rule, Facts),
}

const OK: Said = Said::With(Reply::Done);

// One of the caller's own frames.
const OWN: End = End {
    ptr: 3,
    domid: DomId(DOMID_SELF),
    offset: 0,
};

// The domain, its call, the answer, and the line. In refusals by the policy type 1 is the source and type 0 the target.
static CALLS: [(u16, Hypercall, Said, &str); 17] = [
    (
        2,
        Hypercall::Map {
            dom: DomId(1),
            gref: GrantRef(0),
            flags: 6,
        },
        OK,
        "audit 2 map 1 0 6 : ok\n",
    ),
    (
        2,
        Hypercall::Map {
            dom: DomId(1),
            gref: GrantRef(0),
            flags: 2,
        },
        Said::Refused(
            Rule::N5,
            Facts::Policy {
                source: TypeId(1),
                target: TypeId(0),
                perm: Perms::MAP_WRITE,
            },
        ),
        "audit 2 map 1 0 2 : N5 -8 source=b_t target=a_t perm=map_write\n",
    ),
    (
        2,
        Hypercall::Unmap {
            subject: Some((DomId(1), GrantRef(0))),
        },
        Said::Refused(
            Rule::N5,
            Facts::Policy {
                source: TypeId(1),
                target: TypeId(0),
                perm: Perms::UNMAP,
            },
        ),
        "audit 2 unmap 1 0 : N5 -8 source=b_t target=a_t perm=unmap\n",
    ),
    (
        2,
        Hypercall::Unmap {
            subject: Some((DomId(1), GrantRef(0))),
        },
        OK,
        "audit 2 unmap 1 0 : ok\n",
    ),
    (
        2,
        Hypercall::Unmap { subject: None },
        Said::Refused(Rule::N6, Facts::None),
        "audit 2 unmap - - : N6 -4\n",
    ),
    (
        2,
        Hypercall::Map {
            dom: DomId(9),
            gref: GrantRef(0),
            flags: 6,
        },
        Said::Refused(Rule::N1, Facts::None),
        "audit 2 map 9 0 6 : N1 -2\n",
    ),
    (
        2,
        Hypercall::Map {
            dom: DomId(1),
            gref: GrantRef(0),
            flags: 3,
        },
        Said::Refused(Rule::N2, Facts::None),
        "audit 2 map 1 0 3 : N2 -1\n",
    ),
    (
        2,
        Hypercall::Map {
            dom: DomId(DOMID_SELF),
            gref: GrantRef(4_294_967_295),
            flags: 6,
        },
        Said::Refused(Rule::N9, Facts::None),
        "audit 2 map 2 4294967295 6 : N9 -3\n",
    ),
    (
        2,
        Hypercall::Copy {
            source: End {
                ptr: 5,
                domid: DomId(1),
                offset: 0,
            },
            dest: OWN,
            len: 1,
            flags: 0,
        },
        Said::Refused(Rule::N4, Facts::None),
        "audit 2 copy frame 1 5 0 frame 2 3 0 1 0 : N4 -8\n",
    ),
    (
        2,
        Hypercall::Copy {
            source: End {
                ptr: 0,
                domid: DomId(1),
                offset: 7,
            },
            dest: OWN,
            len: 4096,
            flags: 1,
        },
        OK,
        "audit 2 copy gref 1 0 7 frame 2 3 0 4096 1 : ok\n",
    ),
    (
        3,
        Hypercall::Copy {
            source: OWN,
            dest: End {
                ptr: 0,
                domid: DomId(2),
                offset: 9,
            },
            len: 1,
            flags: 2,
        },
        Said::Refused(Rule::N15, Facts::None),
        "audit 3 copy frame 3 3 0 gref 2 0 9 1 2 : N15 -1\n",
    ),
    (
        2,
        Hypercall::Copy {
            source: OWN,
            dest: OWN,
            len: 0,
            flags: 4,
        },
        Said::Refused(Rule::N2, Facts::None),
        "audit 2 copy frame 2 3 0 frame 2 3 0 0 4 : N2 -1\n",
    ),
    (
        2,
        Hypercall::QuerySize { dom: DomId(1) },
        Said::With(Reply::Size(Size { frames: 2, max: 16 })),
        "audit 2 size 1 : ok frames=2 max=16\n",
    ),
    (
        2,
        Hypercall::GetVersion {
            dom: DomId(DOMID_SELF),
        },
        Said::With(Reply::Version(2)),
        "audit 2 getversion 2 : ok version=2\n",
    ),
    (
        1,
        Hypercall::SetVersion { version: 3 },
        Said::Refused(Rule::N2, Facts::None),
        "audit 1 version 3 : N2 -1\n",
    ),
    (
        1,
        Hypercall::SetupTable { frames: 2 },
        Said::With(Reply::Frames(2)),
        "audit 1 setup 2 : ok frames=2\n",
    ),
    (
        1,
        Hypercall::SetupTable { frames: 5 },
        Said::Refused(Rule::N25, Facts::Field(Field::Kind)),
        "audit 1 setup 5 : N25 -1 field=type\n",
    ),
];

// Returns the line of this call.
fn line_of(
    alloc: Global,
    names: &[String],
    dom: u16,
    call: Hypercall,
    said: Said,
) -> Result<String, Memory> {
    let reply = match said {
        Said::With(reply) => reply,
        Said::Refused(rule, facts) => Reply::Denied(Denial::new(rule, facts)),
    };
    let record = Record {
        dom: DomId(dom),
        call,
        reply,
    };
    line(alloc, &record, names)
}

// Compares the lines of all calls.
fn lines_are(rt: &impl Abort, alloc: Global, names: &[String]) -> Result<(), Memory> {
    for (dom, call, said, wanted) in CALLS.iter() {
        let text = line_of(alloc, names, *dom, *call, *said)?;
        assert_eq!(rt; text.as_str(), *wanted);
    }
    Ok(())
}

fn names(alloc: Global) -> Result<Vec<String>, AllocError> {
    let mut names = Vec::new(alloc);
    for name in ["a_t", "b_t"] {
        names.push(String::from_str(alloc, name)?)?;
    }
    Ok(names)
}

#[test]
fn lines_of_calls(rt: HostRuntime) -> Result<(), Fail> {
    let names = names(rt.alloc())?;
    lines_are(&rt, rt.alloc(), names.as_slice())?;
    Ok(())
}

// Returns the line of this number of lost records.
fn lost_line(alloc: Global, lost: u64) -> Result<Vec<u8>, AllocError> {
    let mut out = Vec::new(alloc);
    push_lost(&mut out, lost)?;
    Ok(out)
}

#[test]
fn lost_records(rt: HostRuntime) -> Result<(), Fail> {
    for (lost, text) in [
        (0, ""),
        (7, "lost 7\n"),
        (u64::MAX, "lost 18446744073709551615\n"),
    ] {
        let out = lost_line(rt.alloc(), lost)?;
        assert_eq!(rt; out.as_slice(), text.as_bytes());
    }
    Ok(())
}
