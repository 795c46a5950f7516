//! Calls of one step on a header: another version, a larger table, and questions about a table.
ghost use Rattle.std.specs.Prelude.{◌≡◌, ◌<◌, None};
ghost use Rattle.gt_model.specs.Path.{path, header_value_of};
ghost use Rattle.gt_model.specs.Rules.{begun, query_begun};
ghost use Rattle.gt_calls.specs.Known.{knows};
ghost use Rattle.gt_model.specs.declared.action.HeaderQuery.{HeaderQuery};
ghost use Rattle.gt_model.specs.declared.request.OpenRequest.TheVariants as asks;
ghost use Rattle.gt_words.specs.Conditions.{IsSeatOf, IsSameSeat};
ghost use Rattle.gt_live.specs.Driving.{CanMake, IsSame, Knows};
ghost use Rattle.gt_live.specs.Questions.{asks_question};
ghost use Rattle.gt_live.specs.Walks.{Called, Made};

use crate::driving::look_at_header;
use gt_calls::{
    CallResult, CallValue, CallerState, Observation, Step, every_call_goes_on_by_its_phase, resolve,
};
use gt_entry::Header;
use gt_types::{Allows, DomId};
use gt_words::{Seat, Words};

// Makes the header with this version and number of frames.
#[inline(always)]
fn header_with(version: u32, frames: u32) -> Header
    requires { (version < 256) × (frames < 256) }
    ensures { (result.version ≡ version) × (result.frames ≡ frames) }
{
    Header {
        version: version as u8,
        frames: frames as u8,
    }
}

// Stores the header of the seat's own table.
#[inline(always)]
fn store_header(words: &Words, seat: &mut Seat, version: u32, frames: u32)
    requires seat { IsSeatOf words.now seat.old }
    requires can { CanMake words.now.layout seat.old.view (Step.StoreHeader version frames) }
    ensures seat { IsSameSeat seat.old seat.new }
    ensures made { Made words.now.layout (Step.StoreHeader version frames) Observation.Nothing seat.old.view seat.new.view }
{
    words.store_header(seat, header_with(version, frames));
}

// Drives a change of version to its end, which is Ok. Requires that it is not decided at its beginning.
#[inline(always)]
pub(crate) fn drive_version<P: Allows>(
    words: &Words,
    known: &CallerState<'_, P>,
    seat: &mut Seat,
    caller: DomId,
    version: u32,
)
    requires seat { IsSeatOf words.now seat.old }
    requires unanswered { begun (knows P.may known.now) caller (asks.SetVersion version) ≡ None }
    requires knows { Knows (knows P.may known.now) words.now.layout caller seat.old.view }
    ensures seat { IsSameSeat seat.old seat.new }
    ensures called { Called words.now.layout (path (knows P.may known.now) caller (asks.SetVersion version))
        CallResult.Granted seat.old.view seat.new.view }
    ensures same { IsSame seat.old.view seat.new.view }
{
    every_call_goes_on_by_its_phase();
    store_header(words, seat, version, u32::from(known.header.frames));
}

// Drives a setup to its end, which gives the number of frames. Requires that it is not decided at its beginning.
#[inline(always)]
pub(crate) fn drive_setup<P: Allows>(
    words: &Words,
    known: &CallerState<'_, P>,
    seat: &mut Seat,
    caller: DomId,
    frames: u32,
)
    requires seat { IsSeatOf words.now seat.old }
    requires unanswered { begun (knows P.may known.now) caller (asks.SetupTable frames) ≡ None }
    requires knows { Knows (knows P.may known.now) words.now.layout caller seat.old.view }
    ensures seat { IsSameSeat seat.old seat.new }
    ensures called { Called words.now.layout (path (knows P.may known.now) caller (asks.SetupTable frames))
        (CallResult.Given (CallValue.Frames frames)) seat.old.view seat.new.view }
    ensures same { IsSame seat.old.view seat.new.view }
{
    every_call_goes_on_by_its_phase();
    store_header(words, seat, u32::from(known.header.version), frames);
}

// Drives a question to its end, and returns the header's word. Requires that it is not decided at its beginning.
#[inline(always)]
pub(crate) fn drive_query<P: Allows>(
    words: &Words,
    known: &CallerState<'_, P>,
    seat: &mut Seat,
    caller: DomId,
    dom: DomId,
) -> u64
    requires seat { IsSeatOf words.now seat.old }
    requires unanswered { query_begun (knows P.may known.now) caller dom ≡ None }
    requires knows { Knows (knows P.may known.now) words.now.layout caller seat.old.view }
    ensures seat { IsSameSeat seat.old seat.new }
    ensures called { (question : HeaderQuery) →
        Called words.now.layout (path (knows P.may known.now) caller (asks_question dom question))
        (header_value_of question result) seat.old.view seat.new.view }
    ensures same { IsSame seat.old.view seat.new.view }
{
    every_call_goes_on_by_its_phase();
    look_at_header(words, seat, resolve(caller, dom))
}
