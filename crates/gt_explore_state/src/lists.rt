//! Lists that grow when they are written.
ghost use Rattle.std.specs.Prelude.{◌≡◌, ◌<◌, ◌-◌, ◌^◌, ◌++◌, ◌==◌, ℕ, OnOk, length, replicate, slice_index_or};
ghost use Rattle.std.specs.Prelude.{if◌then◌else◌};

use std::alloc::AllocError;

/// Makes a list at least this long, by appending this value.
pub fn lengthen<T: Copy>(list: &mut Vec<T>, end: usize, fill: T) -> Result<(), AllocError>
    ensures { OnOk result (list.new.items ≡ list.old.items ++ replicate (end - length list.old.items) fill) }
{
    if list.len() < end {
        list.resize(end, fill)?;
    }
    Ok(())
}

/// Puts a value at this index of a list. Beyond its end, the list is read as if filled with the other value.
pub fn put<T: Copy>(list: &mut Vec<T>, at: usize, value: T, fill: T) -> Result<(), AllocError>
    requires { at < 2 ^ 32 }
    ensures { OnOk result ((k : ℕ) → slice_index_or list.new.items k fill
        ≡ (if at == k then value else slice_index_or list.old.items k fill)) }
{
    lengthen(list, at + 1, fill)?;
    list[at] = value;
    Ok(())
}
