//! Macros that write entries, ends of copies, copies and spots in one line each, for the rows of tests.
//!
//! A table of tests is a constant, and a constant calls no function. So these are macros, with the fields of a type in
//! their order. Domains and references are written as their types have them. The file that calls a macro imports the
//! names of the types, and this crate uses no other. There is nothing to prove: a call is proved as if its value were
//! written out.
#![tactic(auto)]

/// A page entry: domain, whether it is read-only, and frame.
#[macro_export]
macro_rules! page {
    ($dom:expr, $ro:expr, $frame:expr) => {
        Entry::Page {
            dom: $dom,
            ro: $ro,
            frame: $frame,
        }
    };
}

/// A writable sub-page entry: domain, frame, offset and length.
#[macro_export]
macro_rules! sub {
    ($dom:expr, $frame:expr, $off:expr, $len:expr) => {
        Entry::Sub {
            dom: $dom,
            ro: false,
            frame: $frame,
            off: $off,
            len: $len,
        }
    };
}

/// A transitive entry: domain, whether it is read-only, and the domain and reference that it leads to.
#[macro_export]
macro_rules! via {
    ($dom:expr, $ro:expr, $dom2:expr, $gref:expr) => {
        Entry::Via {
            dom: $dom,
            ro: $ro,
            dom2: $dom2,
            gref: $gref,
        }
    };
}

/// An end of a copy: reference or frame, domain and offset.
#[macro_export]
macro_rules! end {
    ($ptr:expr, $domid:expr, $offset:expr) => {
        End {
            ptr: $ptr,
            domid: $domid,
            offset: $offset,
        }
    };
}

/// A copy: source, destination, length and flags.
#[macro_export]
macro_rules! copy {
    ($source:expr, $dest:expr, $len:expr, $flags:expr) => {
        CopyArgs {
            source: $source,
            dest: $dest,
            len: $len,
            flags: $flags,
        }
    };
}

/// A spot in a frame: owner, number and offset.
#[macro_export]
macro_rules! spot {
    ($owner:expr, $number:expr, $off:expr) => {
        Spot {
            frame: FrameName {
                owner: $owner,
                number: $number,
            },
            off: $off,
        }
    };
}
