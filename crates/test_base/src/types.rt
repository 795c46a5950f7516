//! Configurations, rights, and the numbers and names of `grant_table.h` and the policy.
use crate::compare::{same, text_is};
use gt_types::{
    Allows, Config, ConfigFault, Denial, DomId, DomainConfig, Facts, Field, Perms, Rule, Triple,
    Triples, TypeId,
};
use std::alloc::{AllocError, Global};
use std::process::Abort;

// Domain 1 with the type and the sizes of the first worked script.
const ONE: DomainConfig = DomainConfig {
    id: DomId(1),
    label: TypeId(0),
    frames: 8,
    table_frames: 1,
    version: 1,
};

const TWO: DomainConfig = DomainConfig {
    id: DomId(2),
    ..ONE
};

// Domains with the first generation, and the expected result. A fault of the second domain is reported, whatever the
// third has.
static CONFIGS: [(&[DomainConfig], u32, Result<(), ConfigFault>); 11] = [
    (
        &[
            DomainConfig {
                id: DomId(0),
                frames: 1,
                ..ONE
            },
            DomainConfig {
                id: DomId(0x7FEF),
                frames: 64,
                table_frames: 16,
                ..ONE
            },
        ],
        1_048_575,
        Ok(()),
    ),
    (&[], 1_048_576, Err(ConfigFault::NoDomains)),
    (&[ONE], 1_048_576, Err(ConfigFault::Generation)),
    (
        &[
            ONE,
            DomainConfig {
                id: DomId(0x7FF0),
                ..ONE
            },
            ONE,
        ],
        0,
        Err(ConfigFault::Id(DomId(0x7FF0))),
    ),
    (&[ONE, ONE, ONE], 0, Err(ConfigFault::Repeated(DomId(1)))),
    (
        &[ONE, DomainConfig { frames: 0, ..TWO }, ONE],
        0,
        Err(ConfigFault::Frames(DomId(2))),
    ),
    (
        &[
            ONE,
            DomainConfig {
                frames: 65,
                table_frames: 17,
                ..TWO
            },
            ONE,
        ],
        0,
        Err(ConfigFault::Frames(DomId(2))),
    ),
    (
        &[
            ONE,
            DomainConfig {
                table_frames: 0,
                ..TWO
            },
            ONE,
        ],
        0,
        Err(ConfigFault::TableFrames(DomId(2))),
    ),
    (
        &[
            ONE,
            DomainConfig {
                table_frames: 17,
                version: 3,
                ..TWO
            },
            ONE,
        ],
        0,
        Err(ConfigFault::TableFrames(DomId(2))),
    ),
    (
        &[ONE, DomainConfig { version: 0, ..TWO }, ONE],
        0,
        Err(ConfigFault::Version(DomId(2))),
    ),
    (
        &[ONE, DomainConfig { version: 3, ..TWO }, ONE],
        0,
        Err(ConfigFault::Version(DomId(2))),
    ),
];

// Returns the fault of a configuration of these domains.
fn checked(
    alloc: Global,
    domains: &[DomainConfig],
    first_gen: u32,
) -> Result<Result<(), ConfigFault>, AllocError> {
    let config = Config {
        domains: domains.to_vec(alloc)?,
        first_gen,
    };
    Ok(config.check())
}

#[test]
fn names_the_fault_of_a_configuration(rt: HostRuntime) {
    for (domains, first_gen, found) in CONFIGS.iter() {
        same(&rt, &checked(rt.alloc(), domains, *first_gen), &Ok(*found));
    }
}

// Returns the fault of a configuration of this number of domains.
fn many_checked(
    alloc: Global,
    count: u16,
    first_gen: u32,
) -> Result<Result<(), ConfigFault>, AllocError> {
    let mut domains = Vec::new(alloc);
    for at in 0..count {
        let id = DomId(at % 64 + 1);
        domains.push(DomainConfig { id, ..ONE })?;
    }
    Ok(Config { domains, first_gen }.check())
}

#[test]
fn takes_as_many_domains_as_the_limit(rt: HostRuntime) {
    for (count, first_gen, found) in [
        (64, 0, Ok(())),
        (65, 1_048_576, Err(ConfigFault::TooMany(DomId(1)))),
    ] {
        same(&rt, &many_checked(rt.alloc(), count, first_gen), &Ok(found));
    }
}

// A rule has its name, its status with the number of the header, and no facts.
static RULES: [(Rule, &str); 14] = [
    (Rule::N1, "N1 BadDomain -2 None"),
    (Rule::N2, "N2 GeneralError -1 None"),
    (Rule::N3, "N3 BadCopyArg -10 None"),
    (Rule::N4, "N4 PermissionDenied -8 None"),
    (Rule::N5, "N5 PermissionDenied -8 None"),
    (Rule::N6, "N6 BadHandle -4 None"),
    (Rule::N7, "N7 PermissionDenied -8 None"),
    (Rule::N8, "N8 GeneralError -1 None"),
    (Rule::N9, "N9 BadGntref -3 None"),
    (Rule::N10, "N10 GeneralError -1 None"),
    (Rule::N16, "N16 BadPage -9 None"),
    (Rule::N18, "N18 Eagain -12 None"),
    (Rule::N19, "N19 GeneralError -1 None"),
    (Rule::N26, "N26 GeneralError -1 None"),
];

// Returns the text of a denial by this rule.
fn denied(alloc: Global, rule: Rule) -> Result<String, AllocError> {
    let Denial {
        rule,
        status,
        facts,
    } = Denial::new(rule, Facts::None);
    let number = status.number();
    format!(in alloc; "{rule} {status:?} {number} {facts:?}")
}

#[test]
fn gives_the_numbers_of_the_header(rt: HostRuntime) {
    for (rule, wanted) in RULES.iter() {
        text_is(&rt, denied(rt.alloc(), *rule), wanted);
    }
}

static FIELDS: [(Field, &str); 9] = [
    (Field::Length, "length"),
    (Field::Kind, "type"),
    (Field::Reading, "reading"),
    (Field::Writing, "writing"),
    (Field::Pwt, "pwt"),
    (Field::Pcd, "pcd"),
    (Field::Pat, "pat"),
    (Field::SubPage, "sub_page"),
    (Field::Reserved, "reserved"),
];

#[test]
fn prints_fields(rt: HostRuntime) {
    for (field, name) in FIELDS.iter() {
        text_is(&rt, field.to_string(rt.alloc()), name);
    }
}

static PERMISSIONS: [(&str, Option<Perms>); 9] = [
    ("map_read", Some(Perms::MAP_READ)),
    ("map_write", Some(Perms::MAP_WRITE)),
    ("unmap", Some(Perms::UNMAP)),
    ("transfer", Some(Perms::TRANSFER)),
    ("setup", Some(Perms::SETUP)),
    ("copy", Some(Perms::COPY)),
    ("query", Some(Perms::QUERY)),
    ("map_red", None),
    ("*", None),
];

#[test]
fn permissions_have_the_names_of_the_class(rt: HostRuntime) {
    for (word, wanted) in PERMISSIONS.iter() {
        let perm = Perms::named(word.as_bytes());
        let name = match perm {
            Some(perm) => perm.name(),
            None => *word,
        };
        same(&rt, &(perm, name), &(*wanted, *word));
    }
}

const A: TypeId = TypeId(0);

const B: TypeId = TypeId(1);

const READ: Triple = Triple {
    source: B,
    target: A,
    perm: Perms::MAP_READ,
};

const UNMAP: Triple = Triple {
    perm: Perms::UNMAP,
    ..READ
};

static ASKED: [(TypeId, TypeId, Perms, bool); 5] = [
    (B, A, Perms::MAP_READ, true),
    (B, A, Perms::UNMAP, true),
    (B, A, Perms::MAP_WRITE, false),
    (A, B, Perms::MAP_READ, false),
    (B, B, Perms::MAP_READ, false),
];

// Compares the answers of a list of rights.
fn answers_are(rt: &impl Abort, alloc: Global) -> Result<(), AllocError> {
    let rights = Triples {
        allowed: vec![in alloc; READ, UNMAP]?,
    };
    for (source, target, perm, wanted) in ASKED.iter() {
        same(rt, &rights.allows(*source, *target, *perm), wanted);
    }
    Ok(())
}

#[test]
fn allows_what_is_listed(rt: HostRuntime) {
    same(&rt, &answers_are(&rt, rt.alloc()), &Ok(()));
}
