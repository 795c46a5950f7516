//! The reasons why a run did not start, in words.
ghost use Rattle.std.specs.Prelude.{◌≡◌, ◌<◌, ◌-◌, ◌++◌, length, replicate};
ghost use Rattle.gt_c.specs.Faults.{fault_bytes};

/// A text of `len` bytes, followed by zeros.
#[repr(C)]
#[derive(Clone, Copy)]
pub struct FaultText {
    pub len: usize,
    pub bytes: [u8; 80],
}

fn text_of(kind: u32) -> &'static str
    ensures bytes { result.now ≡ fault_bytes kind }
    ensures fits { length result.now < 80 }
{
    match kind {
        0 => "none",
        1 => "memory",
        2 => "the handles are not as many as the domains, or one of them has a domain",
        3 => "syntax",
        4 => "unknown name",
        5 => "name declared twice",
        6 => "no such permission",
        7 => "outside the supported language",
        8 => "limit of the policy",
        9 => "the policy is not UTF-8",
        10 => "no domain",
        11 => "one domain too many",
        12 => "number out of range",
        13 => "number given before",
        14 => "frames out of range",
        15 => "table frames out of range",
        16 => "no such version",
        17 => "first generation out of range",
        18 => "a pointer is null",
        19 => "label past the types of the policy",
        20 => "no such type",
        _ => "no such fault",
    }
}

// Returns the bytes, followed by zeros.
fn padded(text: &[u8]) -> [u8; 80]
    requires { length text.now < 80 }
    ensures { result ≡ text.now ++ replicate (80 - length text.now) 0 }
{
    let mut all = [0; 80];
    all[..text.len()].copy_from_slice(text);
    all
}

/// Returns what a kind of fault means: `len` bytes, followed by zeros.
#[unsafe(no_mangle)]
pub extern "C" fn gthost_fault_text(kind: u32) -> FaultText
    ensures len { result.len ≡ length (fault_bytes kind) }
    ensures bytes { result.bytes ≡ fault_bytes kind ++ replicate (80 - length (fault_bytes kind)) 0 }
{
    let text = text_of(kind).as_bytes();
    FaultText {
        len: text.len(),
        bytes: padded(text),
    }
}
