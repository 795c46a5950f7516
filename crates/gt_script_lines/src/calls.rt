//! The calls of a script.
ghost use Rattle.std.specs.Prelude.{◌≡◌, ◌≤◌, map};
ghost use Rattle.gt_script_lines.specs.Calls.{page_of, sub_of, via_of, entry_of_kind, grant_of, map_of, unmap_of, load_of};
ghost use Rattle.gt_script_lines.specs.Calls.{store_of, peek_of, poke_of, copy_end_of, grant_flag, copy_of, grant_bytes_of};
ghost use Rattle.gt_script_lines.specs.Calls.{only_reference, only_number, only_domain, table_of, access_of, call_line_of};

use crate::fields::{domain, flags, is_word, label, mode, reference, u16_of, u32_of, u64_of};
use crate::hexadecimal::hex_text;
use crate::texts::Text;
use gt_entry::Entry;
use gt_types::{CopyArgs, DomId, End, GrantRef};

/// The flag of a copy whose source is a grant reference: `GNTCOPY_source_gref` of `grant_table.h`.
const SOURCE_GREF: u16 = 1;

/// The flag of a copy whose destination is a grant reference: `GNTCOPY_dest_gref` of `grant_table.h`.
const DEST_GREF: u16 = 2;

/// A call as it is written. A domain written `self` is the number 32752 (`DOMID_SELF` of `xen.h`). A label names the
/// handle of the last map with that label.
#[derive(Debug, Drop)]
pub enum ScriptCall<'a> {
    /// `grant REF page|sub|via ..`: publishes an entry, any but the invalid one. In an entry, 32752 names no domain.
    Grant {
        gref: GrantRef,
        entry: Entry,
    },
    /// `bytes REF HEX`: publishes the entry that these bytes encode; `hex_bytes` decodes them.
    GrantBytes {
        gref: GrantRef,
        hex: Text<'a>,
    },
    /// `revoke REF`: makes the entry invalid, if no pin on it is live.
    Revoke {
        gref: GrantRef,
    },
    /// `withdraw REF`: makes the entry invalid, and leaves its pins.
    Withdraw {
        gref: GrantRef,
    },
    /// `demote REF`: makes the entry read-only.
    Demote {
        gref: GrantRef,
    },
    /// `promote REF`: makes the entry writable.
    Promote {
        gref: GrantRef,
    },
    /// `map LABEL DOM REF FLAGS`: maps, with GNTMAP flags; the label names the handle that the call returns.
    Map {
        label: Text<'a>,
        dom: DomId,
        gref: GrantRef,
        flags: u32,
    },
    /// `unmap LABEL`: ends the mapping.
    Unmap {
        label: Text<'a>,
    },
    /// `load LABEL OFF LEN`: reads LEN bytes through the mapping, starting at offset OFF.
    Load {
        label: Text<'a>,
        off: u16,
        len: u16,
    },
    /// `store LABEL OFF HEX`: writes the bytes, which `hex_bytes` decodes, through the mapping.
    Store {
        label: Text<'a>,
        off: u16,
        hex: Text<'a>,
    },
    /// `peek FRAME OFF LEN`: reads LEN bytes of a frame of the caller.
    Peek {
        frame: u64,
        off: u16,
        len: u16,
    },
    /// `poke FRAME OFF HEX`: writes the bytes, which `hex_bytes` decodes, to a frame of the caller.
    Poke {
        frame: u64,
        off: u16,
        hex: Text<'a>,
    },
    /// `copy END END LEN`: copies LEN bytes from the first end, the source, to the second. An end is
    /// `gref DOM REF OFF`, what an entry of the domain grants, or `frame DOM FRAME OFF`, a frame of the domain.
    Copy(CopyArgs),
    /// `version V`: asks for this version of the caller's table. V is any number of 32 bits; the call refuses all but 1
    /// and 2.
    SetVersion {
        version: u32,
    },
    /// `setup N`: lets the caller's table grow to N frames.
    SetupTable {
        frames: u32,
    },
    /// `size DOM`: asks for the number of frames of the domain's table, and for its maximum.
    QuerySize {
        dom: DomId,
    },
    /// `getversion DOM`: asks for the version of the domain's table.
    GetVersion {
        dom: DomId,
    },
}

#[tactic(auto, unfolding(crate::specs::Calls::page_of))]
fn read_page(args: &[&[u8]]) -> Option<Entry>
    ensures { result ≡ page_of (map (λ word. word.now) args.now) }
{
    match args {
        [dom, access, frame] => Some(Entry::Page {
            dom: domain(dom)?,
            ro: mode(access)?,
            frame: u64_of(frame)?,
        }),
        _ => None,
    }
}

#[tactic(auto, unfolding(crate::specs::Calls::sub_of))]
fn read_sub(args: &[&[u8]]) -> Option<Entry>
    ensures { result ≡ sub_of (map (λ word. word.now) args.now) }
{
    match args {
        [dom, access, frame, off, len] => Some(Entry::Sub {
            dom: domain(dom)?,
            ro: mode(access)?,
            frame: u64_of(frame)?,
            off: u16_of(off)?,
            len: u16_of(len)?,
        }),
        _ => None,
    }
}

#[tactic(auto, unfolding(crate::specs::Calls::via_of))]
fn read_via(args: &[&[u8]]) -> Option<Entry>
    ensures { result ≡ via_of (map (λ word. word.now) args.now) }
{
    match args {
        [dom, access, to, gref] => Some(Entry::Via {
            dom: domain(dom)?,
            ro: mode(access)?,
            dom2: domain(to)?,
            gref: reference(gref)?,
        }),
        _ => None,
    }
}

#[tactic(auto, unfolding(crate::specs::Calls::entry_of_kind))]
fn read_entry(kind: &[u8], args: &[&[u8]]) -> Option<Entry>
    ensures { result ≡ entry_of_kind kind.now (map (λ word. word.now) args.now) }
{
    match kind {
        b"page" => read_page(args),
        b"sub" => read_sub(args),
        b"via" => read_via(args),
        _ => None,
    }
}

#[tactic(auto, unfolding(crate::specs::Calls::grant_of))]
fn read_grant<'a>(args: &[&'a [u8]]) -> Option<ScriptCall<'a>>
    ensures { result ≡ grant_of (map (λ word. word.now) args.now) }
{
    match args {
        [gref, kind, rest @ ..] => Some(ScriptCall::Grant {
            gref: reference(gref)?,
            entry: read_entry(kind, rest)?,
        }),
        _ => None,
    }
}

#[tactic(auto, unfolding(crate::specs::Calls::grant_bytes_of))]
fn read_bytes<'a>(args: &[&'a [u8]]) -> Option<ScriptCall<'a>>
    ensures { result ≡ grant_bytes_of (map (λ word. word.now) args.now) }
{
    match args {
        [gref, digits] => Some(ScriptCall::GrantBytes {
            gref: reference(gref)?,
            hex: hex_text(digits)?,
        }),
        _ => None,
    }
}

#[tactic(auto, unfolding(crate::specs::Calls::map_of))]
fn read_map<'a>(args: &[&'a [u8]]) -> Option<ScriptCall<'a>>
    ensures { result ≡ map_of (map (λ word. word.now) args.now) }
{
    match args {
        [name, dom, gref, bits] => Some(ScriptCall::Map {
            label: label(name)?,
            dom: domain(dom)?,
            gref: reference(gref)?,
            flags: flags(bits)?,
        }),
        _ => None,
    }
}

#[tactic(auto, unfolding(crate::specs::Calls::unmap_of))]
fn read_unmap<'a>(args: &[&'a [u8]]) -> Option<ScriptCall<'a>>
    ensures { result ≡ unmap_of (map (λ word. word.now) args.now) }
{
    match args {
        [name] => Some(ScriptCall::Unmap {
            label: label(name)?,
        }),
        _ => None,
    }
}

#[tactic(auto, unfolding(crate::specs::Calls::load_of))]
fn read_load<'a>(args: &[&'a [u8]]) -> Option<ScriptCall<'a>>
    ensures { result ≡ load_of (map (λ word. word.now) args.now) }
{
    match args {
        [name, off, len] => Some(ScriptCall::Load {
            label: label(name)?,
            off: u16_of(off)?,
            len: u16_of(len)?,
        }),
        _ => None,
    }
}

#[tactic(auto, unfolding(crate::specs::Calls::store_of))]
fn read_store<'a>(args: &[&'a [u8]]) -> Option<ScriptCall<'a>>
    ensures { result ≡ store_of (map (λ word. word.now) args.now) }
{
    match args {
        [name, off, digits] => Some(ScriptCall::Store {
            label: label(name)?,
            off: u16_of(off)?,
            hex: hex_text(digits)?,
        }),
        _ => None,
    }
}

#[tactic(auto, unfolding(crate::specs::Calls::peek_of))]
fn read_peek<'a>(args: &[&'a [u8]]) -> Option<ScriptCall<'a>>
    ensures { result ≡ peek_of (map (λ word. word.now) args.now) }
{
    match args {
        [frame, off, len] => Some(ScriptCall::Peek {
            frame: u64_of(frame)?,
            off: u16_of(off)?,
            len: u16_of(len)?,
        }),
        _ => None,
    }
}

#[tactic(auto, unfolding(crate::specs::Calls::poke_of))]
fn read_poke<'a>(args: &[&'a [u8]]) -> Option<ScriptCall<'a>>
    ensures { result ≡ poke_of (map (λ word. word.now) args.now) }
{
    match args {
        [frame, off, digits] => Some(ScriptCall::Poke {
            frame: u64_of(frame)?,
            off: u16_of(off)?,
            hex: hex_text(digits)?,
        }),
        _ => None,
    }
}

#[tactic(auto, unfolding(crate::specs::Calls::copy_end_of))]
fn read_end(kind: &[u8], dom: &[u8], place: &[u8], off: &[u8]) -> Option<End>
    ensures { result ≡ copy_end_of kind.now dom.now place.now off.now }
{
    match kind {
        b"gref" => Some(End {
            domid: domain(dom)?,
            ptr: u64::from(reference(place)?.0),
            offset: u16_of(off)?,
        }),
        b"frame" => Some(End {
            domid: domain(dom)?,
            ptr: u64_of(place)?,
            offset: u16_of(off)?,
        }),
        _ => None,
    }
}

#[tactic(auto, unfolding(crate::specs::Calls::grant_flag))]
fn grant_flag(kind: &[u8], flag: u16) -> u16
    ensures is { result ≡ grant_flag kind.now flag }
    ensures most { result ≤ flag }
{
    if is_word(kind, "gref") { flag } else { 0 }
}

#[tactic(auto, unfolding(crate::specs::Calls::copy_of))]
fn read_copy<'a>(args: &[&'a [u8]]) -> Option<ScriptCall<'a>>
    ensures { result ≡ copy_of (map (λ word. word.now) args.now) }
{
    match args {
        [
            from_kind,
            from_dom,
            from,
            from_off,
            to_kind,
            to_dom,
            to,
            to_off,
            len,
        ] => Some(ScriptCall::Copy(CopyArgs {
            source: read_end(from_kind, from_dom, from, from_off)?,
            dest: read_end(to_kind, to_dom, to, to_off)?,
            len: u16_of(len)?,
            flags: grant_flag(from_kind, SOURCE_GREF) + grant_flag(to_kind, DEST_GREF),
        })),
        _ => None,
    }
}

/// Reads a reference, if it is the only word.
#[tactic(auto, unfolding(crate::specs::Calls::only_reference))]
pub fn only_reference(args: &[&[u8]]) -> Option<GrantRef>
    ensures { result ≡ only_reference (map (λ word. word.now) args.now) }
{
    match args {
        [gref] => reference(gref),
        _ => None,
    }
}

// Reads a number of 32 bits, if it is the only word.
#[tactic(auto, unfolding(crate::specs::Calls::only_number))]
fn only_number(args: &[&[u8]]) -> Option<u32>
    ensures { result ≡ only_number (map (λ word. word.now) args.now) }
{
    match args {
        [number] => u32_of(number),
        _ => None,
    }
}

// Reads a domain, if it is the only word.
#[tactic(auto, unfolding(crate::specs::Calls::only_domain))]
fn only_domain(args: &[&[u8]]) -> Option<DomId>
    ensures { result ≡ only_domain (map (λ word. word.now) args.now) }
{
    match args {
        [dom] => domain(dom),
        _ => None,
    }
}

// Reads a call on a table: on its entries, its version or its size.
#[tactic(auto, unfolding(crate::specs::Calls::table_of))]
fn read_table_call<'a>(word: &[u8], args: &[&'a [u8]]) -> Option<ScriptCall<'a>>
    ensures { result ≡ table_of word.now (map (λ word. word.now) args.now) }
{
    if is_word(word, "grant") {
        read_grant(args)
    } else if is_word(word, "bytes") {
        read_bytes(args)
    } else if is_word(word, "revoke") {
        Some(ScriptCall::Revoke {
            gref: only_reference(args)?,
        })
    } else if is_word(word, "withdraw") {
        Some(ScriptCall::Withdraw {
            gref: only_reference(args)?,
        })
    } else if is_word(word, "demote") {
        Some(ScriptCall::Demote {
            gref: only_reference(args)?,
        })
    } else if is_word(word, "promote") {
        Some(ScriptCall::Promote {
            gref: only_reference(args)?,
        })
    } else if is_word(word, "version") {
        Some(ScriptCall::SetVersion {
            version: only_number(args)?,
        })
    } else if is_word(word, "setup") {
        Some(ScriptCall::SetupTable {
            frames: only_number(args)?,
        })
    } else if is_word(word, "size") {
        Some(ScriptCall::QuerySize {
            dom: only_domain(args)?,
        })
    } else if is_word(word, "getversion") {
        Some(ScriptCall::GetVersion {
            dom: only_domain(args)?,
        })
    } else {
        None
    }
}

// Reads a call on a mapping, or one that reads or writes bytes.
#[tactic(auto, unfolding(crate::specs::Calls::access_of))]
fn read_access_call<'a>(word: &[u8], args: &[&'a [u8]]) -> Option<ScriptCall<'a>>
    ensures { result ≡ access_of word.now (map (λ word. word.now) args.now) }
{
    if is_word(word, "map") {
        read_map(args)
    } else if is_word(word, "unmap") {
        read_unmap(args)
    } else if is_word(word, "load") {
        read_load(args)
    } else if is_word(word, "store") {
        read_store(args)
    } else if is_word(word, "peek") {
        read_peek(args)
    } else if is_word(word, "poke") {
        read_poke(args)
    } else if is_word(word, "copy") {
        read_copy(args)
    } else {
        None
    }
}

/// Reads a call: its word and its arguments; None if they are not one.
#[tactic(auto, unfolding(crate::specs::Calls::call_line_of))]
pub fn read_call<'a>(words: &[&'a [u8]]) -> Option<ScriptCall<'a>>
    ensures { result ≡ call_line_of (map (λ word. word.now) words.now) }
{
    let (word, args) = words.split_first()?;
    match read_table_call(word, args) {
        Some(call) => Some(call),
        None => read_access_call(word, args),
    }
}
