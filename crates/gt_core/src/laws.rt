//! Laws about the definitions of this crate. Each law is a function with an empty body, whose contract is the law.
ghost use Rattle.gt_core.specs.Alike.{bare_handle, IsKnown, AreAlike, IsOfKnown, SameElement, SameEvent};
ghost use Rattle.std.specs.Prelude.{◌≡◌, ℕ};
ghost use Rattle.gt_types.specs.declared.DomId.{DomId};
ghost use Rattle.gt_core.specs.GoingOn.{CallsCanBegin, OpenCallsCanAccess, OpenCallsCanGoOn, RunsStart};
ghost use Rattle.gt_model.specs.History.{History, Setting};
ghost use Rattle.gt_model.specs.Legal.{MayDo, grown};
ghost use Rattle.gt_core.specs.Shown.{shown_at};
ghost use Rattle.gt_core.specs.Subject.{subject_at};
ghost use Rattle.gt_core.specs.TakenBack.{LegalTracesAreHistories, PagesTakenBackAreOutOfReach, PinsAreTakenSince};
ghost use Rattle.gt_model.specs.declared.handle.Handle.{Handle};
ghost use Rattle.gt_model.specs.declared.trace.Event.{Event};
ghost use Rattle.gt_model.specs.declared.trace.Element.{Element};

/// Proves that an event can do only one thing after a history, except for the key of a handle in an answer.
pub fn every_event_does_one_thing()
    ensures { (s : Setting) (h : History) (e : Event) (one other : Element) →
        MayDo s h e one → MayDo s h e other → SameElement one other }
{}

/// Proves that in two runs that are equal except for keys, two events that are equal except for keys do the same
/// except for keys. Their handles must be ones that their domains were answered with.
pub fn every_alike_event_does_one_thing()
    ensures { (s : Setting) (g h : History) (e f : Event) (one other : Element) →
        AreAlike s g h → SameEvent e f → IsOfKnown g e → IsOfKnown h f →
        MayDo s g e one → MayDo s h f other →
        SameElement one other × AreAlike s (grown g one) (grown h other) }
{}

/// Proves that in two runs that are equal except for keys, an entry shows the same.
pub fn every_alike_run_shows_one_thing()
    ensures { (s : Setting) (g h : History) (dom : DomId) (r : ℕ) →
        AreAlike s g h → shown_at s g dom r ≡ shown_at s h dom r }
{}

/// Proves that in two runs that are equal except for keys, two handles that are equal except for keys name mappings
/// of the same entry. The handles must be ones that their domain was answered with.
pub fn every_known_handle_has_one_subject()
    ensures { (s : Setting) (g h : History) (dom : DomId) (a b : Handle) →
        AreAlike s g h → bare_handle a ≡ bare_handle b → IsKnown g dom.0 a → IsKnown h dom.0 b →
        subject_at s g dom a ≡ subject_at s h dom b }
{}

/// Proves that the items of a legal trace are a legal history. So the laws about legal histories hold for each run
/// that is played.
pub fn every_legal_trace_is_a_legal_history()
    ensures { LegalTracesAreHistories }
{}

/// Proves that after a revocation or a publication of an entry, each live pin on that entry was taken later. A
/// publication after a withdrawal is included. So no pin of an earlier record of that entry justifies an access.
pub fn no_pin_outlives_its_record()
    ensures { PinsAreTakenSince }
{}

/// Proves that after an owner takes a page back, no other domain reads or writes it until the owner grants it
/// again. A page is taken back if none of its owner's entries grants it, and none of its owner's invalid entries
/// has a live pin.
pub fn every_page_taken_back_is_out_of_reach()
    ensures { PagesTakenBackAreOutOfReach }
{}

/// Proves that a run can start in each configuration within the limits.
pub fn every_run_can_start()
    ensures { RunsStart }
{}

/// Proves that after each history that a core represents, a domain of the run with no open call can begin a call.
/// The numbers of the entry that it grants must fit their types, and the bytes of a grant by bytes must encode an
/// entry.
pub fn every_call_can_begin()
    ensures { CallsCanBegin }
{}

/// Proves that after each history that a core represents, each open call can make its next step, if that is on
/// words.
pub fn every_open_call_can_go_on()
    ensures { OpenCallsCanGoOn }
{}

/// Proves that after each history that a core represents, each open call whose next step is an access to bytes can
/// make it. A read returns the bytes that the range held.
pub fn every_open_call_can_access()
    ensures { OpenCallsCanAccess }
{}
