//! The numbers in an entry's bytes, by offset. All are little-endian.
ghost use Rattle.std.specs.Prelude.{◌≡◌, ◌≤◌, ◌+◌, length};
ghost use Rattle.gt_model.specs.Bytes.{field, with_field};

use byteorder::{ByteOrder, LittleEndian};

/// Reads the number in the 2 bytes starting at `at`.
pub fn read_u16(bytes: &[u8], at: usize) -> u16
    requires { at + 2 ≤ length bytes.now }
    ensures { result ≡ field bytes.now at 2 }
{
    LittleEndian::read_u16(&bytes[at..])
}

/// Reads the number in the 4 bytes starting at `at`.
pub fn read_u32(bytes: &[u8], at: usize) -> u32
    requires { at + 4 ≤ length bytes.now }
    ensures { result ≡ field bytes.now at 4 }
{
    LittleEndian::read_u32(&bytes[at..])
}

/// Reads the number in the 8 bytes starting at `at`.
pub fn read_u64(bytes: &[u8], at: usize) -> u64
    requires { at + 8 ≤ length bytes.now }
    ensures { result ≡ field bytes.now at 8 }
{
    LittleEndian::read_u64(&bytes[at..])
}

/// Writes the number into the 2 bytes starting at `at`.
pub fn write_u16(bytes: &mut [u8], at: usize, number: u16)
    requires { at + 2 ≤ length bytes.old }
    ensures whole { bytes.new ≡ with_field bytes.old at 2 number }
    ensures holds { field bytes.new at 2 ≡ number }
{
    LittleEndian::write_u16(&mut bytes[at..], number);
}

/// Writes the number into the 4 bytes starting at `at`.
pub fn write_u32(bytes: &mut [u8], at: usize, number: u32)
    requires { at + 4 ≤ length bytes.old }
    ensures whole { bytes.new ≡ with_field bytes.old at 4 number }
    ensures holds { field bytes.new at 4 ≡ number }
{
    LittleEndian::write_u32(&mut bytes[at..], number);
}

/// Writes the number into the 8 bytes starting at `at`.
pub fn write_u64(bytes: &mut [u8], at: usize, number: u64)
    requires { at + 8 ≤ length bytes.old }
    ensures whole { bytes.new ≡ with_field bytes.old at 8 number }
    ensures holds { field bytes.new at 8 ≡ number }
{
    LittleEndian::write_u64(&mut bytes[at..], number);
}
