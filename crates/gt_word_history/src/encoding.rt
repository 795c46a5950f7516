//! The words of a domain's header, and of an entry without pins.
ghost use Rattle.std.specs.Prelude.{◌≡◌, ◌*◌, ◌<◌};
ghost use Rattle.gt_model.specs.Spelling.{idle_word_of};
ghost use Rattle.gt_word_history.specs.Rule.{first_header};

use gt_entry::{Control, Entry, Header};
use gt_types::DomainConfig;

/// Returns the header of a domain at the start.
pub fn first_header(domain: DomainConfig) -> Header
    requires { (domain.version < 4) × (domain.table_frames < 256) }
    ensures { result ≡ first_header domain }
{
    Header {
        version: domain.version as u8,
        frames: domain.table_frames as u8,
    }
}

/// Returns the control word of the entry at a generation, with no pins.
pub fn idle_word(entry: Entry, generation: u32) -> u64
    requires { generation < 1048576 }
    ensures { result ≡ idle_word_of entry generation }
{
    Control::of_entry(entry, generation, 0, 0).pack()
}
