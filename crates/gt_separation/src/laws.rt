//! Laws about the traces of `gt_core`. Each law is a function with an empty body, whose contract is the law.
ghost use Rattle.gt_separation.specs.Apart.{HighItemsLeaveLow, HighItemsShowOnlyPins};
ghost use Rattle.gt_separation.specs.Separate.{HighCallsMakeNoDifference, LowPartsAreLegal, RequestsKeepApart};
ghost use Rattle.gt_separation.specs.Separate.{UnsharedDomainsMakeNoDifference};

/// Proves separation, one event at a time. Up to now no entry of a low domain has named a high one, and no copy of a
/// high domain an entry of a low one. Then whatever a high domain does next, all words of the tables of low domains,
/// with the counts of their pins, and all bytes of their frames are what they were.
pub fn high_items_leave_low()
    ensures { HighItemsLeaveLow }
{}

/// Proves that in the words of the tables of low domains an item of a high domain shows only as a pin that it takes or
/// releases, also if they share with it.
pub fn high_items_show_only_pins()
    ensures { HighItemsShowOnlyPins }
{}

/// Proves separation, for whole runs. No low domain shared with a high one or looked at a table of one, and no copy of
/// a high domain named an entry of a low one. Then the events of low domains alone, with what they did, are a legal
/// trace too, with the same steps, answers, bytes and handles. Each word, table and frame of low domains is the same
/// after it.
pub fn low_parts_are_legal()
    ensures { LowPartsAreLegal }
{}

/// Proves the same for two runs. All calls of high domains may be made or not, at any time. Two legal traces whose
/// events of low domains are the same did the same at those, answers and bytes included. Each word, table and frame of
/// low domains is the same after both. In one of them no low domain shared with a high one or looked at a table of one,
/// and in neither did a copy of a high domain name an entry of a low one. High domains may guess handles.
pub fn high_calls_make_no_difference()
    ensures { HighCallsMakeNoDifference }
{}

/// Proves that requests are enough to keep domains apart. No request of a low domain names a high one: not in an entry
/// that it grants, and not as the owner of an entry or a table. Then no entry of a low domain names a high one at any
/// time, and no low domain looks at a table of a high one, not by the second entry behind a Via either. The run is one
/// of a configuration within the limits, and low domains name only handles that they were answered with.
pub fn requests_keep_apart()
    ensures { RequestsKeepApart }
{}

/// Proves separation by what domains ask. No request of a low domain names a high one, and no copy of a high domain an
/// entry of a low one. Then all calls of high domains may be made or not, at any time, and each step, answer, word,
/// table and frame of low domains is the same. So if no other guest shares with a guest, and its copies name no
/// reference of another, the others run as they would without it.
pub fn unshared_domains_make_no_difference()
    ensures { UnsharedDomainsMakeNoDifference }
{}
