//! Texts that are too long for a file in `data/` or that can't be read, and a writer that counts.
use gt_program::TextSource;
use std::alloc::Global;
use std::io::{self, ErrorKind, Read, Write};

// A text: its name, its beginning, a line and how often it comes, and its end.
type Row = (
    &'static str,
    &'static str,
    &'static str,
    usize,
    &'static str,
);

const ALLOW: &str = "allow a_t b_t:grant { map_read map_write unmap copy query };\n";

const STATEMENT: &str = "neverallow a_t b_t:grant map_write;\n";

const COMMENT: &str = "# many lines like this one, which nobody reads, make the text long\n";

const HEAD: &str = "triple a_t a_t query\ndomain 1 u:r:a_t 8 4 1\n";

const RACE: &str = "triple b_t a_t map_read
domain 1 u:r:a_t 8 1 1
domain 2 u:r:b_t 8 1 1
";

const RACED: &str = "do 1 grant 0 page 2 ro 5
tell 1 granted
do 1 revoke 0
await 2 granted
do 2 map page 1 0 ro
";

const ENTRY: &str = "0100020005000000\n";

static TEXTS: [Row; 19] = [
    ("questions", "", COMMENT, 1_000, "a_t b_t copy\n"),
    ("allows.te", "type a_t;\ntype b_t;\n", ALLOW, 800, ""),
    (
        "slips.te",
        "type a_t;\n",
        "allow a_t a_t:grnat copy;\n",
        700,
        "allow a_t a_t:grant copy;\n",
    ),
    ("small.te", "type a_t;\ntype b_t;\n", ALLOW, 1, ""),
    (
        "one_line.te",
        "type a_t; ",
        "allow a_t a_t:grnat copy; ",
        1_000,
        "\n",
    ),
    ("flows_never.te", "", "neverflow b_t a_t; ", 1_000, "\n"),
    (
        "one_never.te",
        "",
        "neverallow a_t b_t:grant map_write; ",
        1_000,
        "\n",
    ),
    ("broken.te", "type a_t;\ntype b_t;\n", ALLOW, 3, ""),
    ("never.te", STATEMENT, "", 0, ""),
    ("long_never.te", "", COMMENT, 1_000, STATEMENT),
    ("slips.gt", HEAD, "do 1 unmap ring\n", 700, ""),
    ("refused.gt", HEAD, COMMENT, 1_000, "do 1 setup 2\n"),
    ("faulty.gt", HEAD, COMMENT, 1_000, "do 2 setup 2\n"),
    ("small.gt", HEAD, "do 1 setup 2\n", 1, ""),
    ("broken.gt", HEAD, "do 1 setup 2\n", 3, ""),
    ("race.gt", RACE, "do 1 peek 5 0 64\n", 170, RACED),
    ("long.text", "", "3 1 ok\n", 10_000, ""),
    ("full.hex", "", ENTRY, 8_192, ""),
    ("long.hex", "", ENTRY, 8_193, ""),
];

// Files that can't be opened.
static UNOPENED: [(&str, ErrorKind); 2] = [
    ("locked", ErrorKind::PermissionDenied),
    ("heavy", ErrorKind::OutOfMemory),
];

/// The texts as files. One of them is the standard input.
#[derive(Drop)]
pub struct Made;

/// A text that is made while it is read.
#[derive(Drop)]
pub struct MadeText {
    // What is left of the line that is read.
    rest: &'static [u8],
    line: &'static [u8],
    times: usize,
    end: &'static [u8],
    // The read after the end fails.
    is_broken: bool,
}

impl MadeText {
    fn of(row: &Row) -> MadeText {
        let (name, beginning, line, times, end) = *row;
        MadeText {
            rest: beginning.as_bytes(),
            line: line.as_bytes(),
            times,
            end: end.as_bytes(),
            is_broken: name.starts_with("broken"),
        }
    }

    // Goes on to the next line.
    fn go_on(&mut self) {
        if self.times > 0 {
            self.times -= 1;
            self.rest = self.line;
        } else {
            self.rest = self.end;
            self.end = b"";
        }
    }
}

impl Read for MadeText {
    fn read(&mut self, buf: &mut [u8]) -> io::Result<usize> {
        if self.rest.is_empty() {
            self.go_on();
        }
        let rest = self.rest;
        if rest.is_empty() && self.is_broken {
            return Err(io::Error::from(ErrorKind::ConnectionReset));
        }
        let count = buf.len().min(rest.len());
        buf[..count].copy_from_slice(&rest[..count]);
        self.rest = &rest[count..];
        Ok(count)
    }
}

impl TextSource for Made {
    type File = MadeText;

    type Input = MadeText;

    fn open(&self, name: &str) -> io::Result<MadeText> {
        for (unopened, kind) in UNOPENED.iter() {
            if *unopened == name {
                return Err(io::Error::from(*kind));
            }
        }
        for row in TEXTS.iter() {
            if row.0 == name {
                return Ok(MadeText::of(row));
            }
        }
        Err(io::Error::from(ErrorKind::NotFound))
    }

    fn input(&self) -> MadeText {
        MadeText::of(&TEXTS[0])
    }
}

/// A writer that counts bytes, sums them up, and keeps the last line.
#[derive(Drop)]
pub struct Counted {
    count: usize,
    sum: u64,
    last: Vec<u8>,
    is_ended: bool,
}

impl Counted {
    pub fn new(alloc: Global) -> Counted {
        Counted {
            count: 0,
            sum: 0,
            last: Vec::new(alloc),
            is_ended: false,
        }
    }

    fn take(&mut self, byte: u8) -> io::Result<()> {
        if self.is_ended {
            self.last.clear();
        }
        self.is_ended = byte == b'\n';
        self.last.push(byte)?;
        self.count = self.count.saturating_add(1);
        self.sum = self.sum.wrapping_mul(31).wrapping_add(u64::from(byte));
        Ok(())
    }

    /// Prints what it has taken: the number of bytes, their sum, and the last line.
    pub fn tell<P: Print>(&self, alloc: Global, rt: &P) -> io::Result<()> {
        let last = String::from_utf8_lossy(alloc, self.last.as_slice())?;
        println!(rt; "{} bytes, sum {:x}, the last line:", self.count, self.sum)?;
        rt.print(last)
    }
}

impl Write for Counted {
    fn write(&mut self, buf: &[u8]) -> io::Result<usize> {
        for byte in buf {
            self.take(*byte)?;
        }
        Ok(buf.len())
    }

    fn flush(&mut self) -> io::Result<()> {
        Ok(())
    }
}
