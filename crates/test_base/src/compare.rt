//! The comparisons of these tests. Each assertion in a test is one more path, on which all its locals are listed and
//! dropped, so the tests call these functions.
use std::alloc::AllocError;
use std::fmt::Debug;
use std::process::Abort;

/// Compares two values.
pub fn same<T: PartialEq + Debug>(rt: &impl Abort, found: &T, wanted: &T) {
    assert_eq!(rt; *found, *wanted);
}

/// Compares bytes.
pub fn bytes_are(rt: &impl Abort, found: &[u8], wanted: &[u8]) {
    assert_eq!(rt; found, wanted);
}

/// Compares a text.
pub fn text_is(rt: &impl Abort, text: Result<String, AllocError>, wanted: &str) {
    match text {
        Ok(text) => assert_eq!(rt; text.as_str(), wanted),
        Err(fault) => panic!(rt; "{fault}"),
    }
}
