//! The accesses of calls to the bytes of frames.
ghost use Rattle.std.specs.Prelude.{◌≡◌, OnOk, OnErr, IsTrue, vec_len};
ghost use Rattle.gt_frames.specs.Frames.{bytes_at};
ghost use Rattle.gt_frames.specs.Sets.{frame_at, has_range};
ghost use Rattle.gt_core.specs.Accesses.{IsWriting, IsAdmitted, AccessedBy};

use crate::state::DomainState;
use crate::underway::OpenCall;
use gt_calls::Step;
use gt_frames::{FrameName, Frames};
use gt_types::Memory;

/// Reads the bytes of a frame, starting at `off`, over all of `out`.
pub fn read_bytes(frames: &Frames, name: FrameName, off: u16, out: Vec<u8>) -> Vec<u8>
    requires { IsTrue (has_range frames.now name off (vec_len out)) }
    ensures { result.items ≡ bytes_at (frame_at frames.now name) off (vec_len out) }
{
    let frame = frames.get(name).unwrap();
    frame.read(off, out).into_bytes()
}

/// Writes what the domain's call writes in this step: the bytes of its request, or for a copy those of its source.
/// Other steps write nothing.
///
/// # Errors
///
/// `Memory`, only if the step writes. All frames are then unchanged.
pub fn write_bytes(
    frames: &mut Frames,
    domain: &DomainState,
    underway: OpenCall,
) -> Result<(), Memory>
    requires { IsAdmitted frames.old domain.now underway.call underway.step }
    ensures accessed { OnOk result (AccessedBy domain.now underway.call underway.step frames.old frames.new) }
    ensures refused { OnErr result (frames.new ≡ frames.old) }
    ensures memory { OnErr result (IsWriting underway.step) }
{
    match underway.step {
        Step::Write {
            dom,
            frame,
            off,
            ..
        } => {
            let name = FrameName {
                owner: dom,
                number: frame,
            };
            frames.write(name, &domain.writ(underway.call), off, &domain.given)?;
        }
        Step::Copy { from, to, len } => {
            frames.copy(&domain.writ(underway.call), from, to, len)?;
        }
        _ => {}
    }
    Ok(())
}
