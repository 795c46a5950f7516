//! Laws about successive writes, and the read limit as a number.
ghost use Rattle.std.specs.Prelude.{◌≡◌, ℕ, List, [], ◌++◌, Option};
ghost use Rattle.std.specs.Io.KnownBytes.{Appends, Keeps};
ghost use Rattle.gt_text.specs.Streams.{AppendsBeginning};

use crate::streams::READ_LIMIT;

/// A law: the value of `READ_LIMIT`, in bytes.
pub fn the_read_limit()
    ensures { READ_LIMIT ≡ 1048577 }
{}

/// A law: a writer to which nothing goes out is unchanged.
pub fn every_writer_keeps_what_it_has()
    ensures keeps { (a : Option (List ℕ)) → Keeps a a }
    ensures nothing { (a : Option (List ℕ)) → Appends a a [] }
{}

/// A law: texts that go out one after the other are one text, and a prefix of the last one makes a prefix of that text.
pub fn every_text_goes_on()
    ensures both { (a b c : Option (List ℕ)) (xs ys : List ℕ) →
        Appends a b xs → Appends b c ys → Appends a c (xs ++ ys) }
    ensures begins { (a b c : Option (List ℕ)) (xs ys : List ℕ) →
        Appends a b xs → AppendsBeginning b c ys → AppendsBeginning a c (xs ++ ys) }
    ensures longer { (a c : Option (List ℕ)) (xs ys : List ℕ) →
        AppendsBeginning a c xs → AppendsBeginning a c (xs ++ ys) }
{}
