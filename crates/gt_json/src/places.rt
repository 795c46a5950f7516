//! The meaning of the words of a line, by their positions.
ghost use Rattle.std.specs.Prelude.{◌≡◌};
ghost use Rattle.gt_json.specs.Places.{start, after_line, after_kind, after_call, next_place, next, name_at, is_start};
ghost use Rattle.gt_json.specs.Places.{is_mark};

use crate::words::{is_rule, is_word};

/// The text that is printed: that of `play` and `run`, of `policy`, or of `entries`.
#[derive(Clone, Copy)]
pub enum PrintedText {
    Run,
    Policy,
    Entries,
}

/// The meaning of the next word of a line.
#[derive(Clone, Copy)]
pub enum WordPlace {
    /// The line of a script, or `audit` or `lost`.
    Line,
    /// The domain that called, or `show`.
    Caller,
    /// The answer, or the rule of a refusal.
    Answer,
    /// The status of a refusal.
    Status,
    /// A fact with its name, or the bytes of an answer.
    Fact,
    /// The domain whose entry is shown.
    Shown,
    /// The reference of an entry that is shown.
    Entry,
    /// The kind of an entry.
    Kind,
    /// The domain that an entry is for.
    Grantee,
    /// The mode of an entry.
    Mode,
    /// The field by which an entry is refused.
    Field,
    /// The domain whose call is recorded.
    Recorded,
    /// The call that is recorded.
    Call,
    /// The domain of an entry or table that a call names.
    Owner,
    /// The reference of an entry that a call names.
    Reference,
    /// The flags of a call.
    Flags,
    /// The version or the number of frames that a call asks for.
    Asked,
    /// The source of a copy: its kind, its domain, its reference or frame, and its offset.
    FromKind,
    FromOwner,
    FromAt,
    FromOff,
    /// The destination of a copy.
    ToKind,
    ToOwner,
    ToAt,
    ToOff,
    /// The number of bytes of a copy.
    Len,
    /// The number of lost records.
    Lost,
    /// The source, the target and the permission of a triple.
    Source,
    Target,
    Permission,
    /// The reference of an entry of a dump.
    Dumped,
}

fn after_line(word: &[u8]) -> WordPlace
    ensures { result ≡ after_line word.now }
{
    if is_word(word, "audit") {
        WordPlace::Recorded
    } else if is_word(word, "lost") {
        WordPlace::Lost
    } else {
        WordPlace::Caller
    }
}

fn after_kind(word: &[u8]) -> WordPlace
    ensures { result ≡ after_kind word.now }
{
    if is_word(word, "page") || is_word(word, "sub") || is_word(word, "via") {
        WordPlace::Grantee
    } else if is_word(word, "refused") {
        WordPlace::Field
    } else {
        WordPlace::Fact
    }
}

fn after_call(word: &[u8]) -> WordPlace
    ensures { result ≡ after_call word.now }
{
    if is_word(word, "copy") {
        WordPlace::FromKind
    } else if is_word(word, "version") || is_word(word, "setup") {
        WordPlace::Asked
    } else {
        WordPlace::Owner
    }
}

impl PrintedText {
    ghost use Rattle.std.specs.Prelude.{◌≡◌};
    ghost use Rattle.gt_json.specs.Places.{start};

    /// Returns the meaning of the first word of a line.
    pub fn start(self) -> WordPlace
        ensures { result ≡ start self }
    {
        match self {
            PrintedText::Run => WordPlace::Line,
            PrintedText::Policy => WordPlace::Source,
            PrintedText::Entries => WordPlace::Dumped,
        }
    }
}

impl WordPlace {
    ghost use Rattle.std.specs.Prelude.{◌≡◌};
    ghost use Rattle.gt_json.specs.Places.{next_place, next, name_at, is_start, is_fact, is_mark};

    /// Returns whether this is the first word of a line.
    pub fn is_start(self) -> bool
        ensures { result ≡ is_start self }
    {
        matches!(
            self,
            WordPlace::Line | WordPlace::Source | WordPlace::Dumped
        )
    }

    /// Returns whether this is a fact, which may have its own name.
    pub fn is_fact(self) -> bool
        ensures { result ≡ is_fact self }
    {
        matches!(self, WordPlace::Fact)
    }

    /// Returns whether the word is the colon before the answer of an audit line, which is not a member.
    pub fn is_mark(self, word: &[u8]) -> bool
        ensures { result ≡ is_mark self word.now }
    {
        !self.is_start() && is_word(word, ":")
    }

    // Returns the meaning of the word after one that is a member.
    fn next_place(self, word: &[u8]) -> WordPlace
        ensures { result ≡ next_place self word.now }
    {
        match self {
            WordPlace::Line => after_line(word),
            WordPlace::Caller if is_word(word, "show") => WordPlace::Shown,
            WordPlace::Caller => WordPlace::Answer,
            WordPlace::Answer if is_rule(word) => WordPlace::Status,
            WordPlace::Answer => WordPlace::Fact,
            WordPlace::Status => WordPlace::Fact,
            WordPlace::Fact => WordPlace::Fact,
            WordPlace::Shown => WordPlace::Entry,
            WordPlace::Entry => WordPlace::Kind,
            WordPlace::Kind => after_kind(word),
            WordPlace::Grantee => WordPlace::Mode,
            WordPlace::Mode => WordPlace::Fact,
            WordPlace::Field => WordPlace::Fact,
            WordPlace::Recorded => WordPlace::Call,
            WordPlace::Call => after_call(word),
            WordPlace::Owner => WordPlace::Reference,
            WordPlace::Reference => WordPlace::Flags,
            WordPlace::Flags => WordPlace::Fact,
            WordPlace::Asked => WordPlace::Fact,
            WordPlace::FromKind => WordPlace::FromOwner,
            WordPlace::FromOwner => WordPlace::FromAt,
            WordPlace::FromAt => WordPlace::FromOff,
            WordPlace::FromOff => WordPlace::ToKind,
            WordPlace::ToKind => WordPlace::ToOwner,
            WordPlace::ToOwner => WordPlace::ToAt,
            WordPlace::ToAt => WordPlace::ToOff,
            WordPlace::ToOff => WordPlace::Len,
            WordPlace::Len => WordPlace::Flags,
            WordPlace::Lost => WordPlace::Fact,
            WordPlace::Source => WordPlace::Target,
            WordPlace::Target => WordPlace::Permission,
            WordPlace::Permission => WordPlace::Fact,
            WordPlace::Dumped => WordPlace::Kind,
        }
    }

    /// Returns the meaning of the word after this one.
    #[tactic(auto, unfolding(crate::specs::Places::next))]
    pub fn next(self, word: &[u8]) -> WordPlace
        ensures { result ≡ next self word.now }
    {
        if self.is_mark(word) {
            WordPlace::Answer
        } else {
            self.next_place(word)
        }
    }

    /// Returns the name of the word; for a fact, that of one without its own name.
    #[tactic(auto, unfolding(crate::specs::Places::name_at))]
    pub fn name(self, word: &[u8]) -> &'static str
        ensures { result.now ≡ name_at self word.now }
    {
        match self {
            WordPlace::Line if is_word(word, "audit") || is_word(word, "lost") => "type",
            WordPlace::Line => "line",
            WordPlace::Caller if is_word(word, "show") => "type",
            WordPlace::Caller => "domain",
            WordPlace::Answer if is_rule(word) => "rule",
            WordPlace::Answer => "answer",
            WordPlace::Status => "status",
            WordPlace::Fact => "bytes",
            WordPlace::Shown => "domain",
            WordPlace::Entry => "entry",
            WordPlace::Kind => "kind",
            WordPlace::Grantee => "grantee",
            WordPlace::Mode => "mode",
            WordPlace::Field => "field",
            WordPlace::Recorded => "domain",
            WordPlace::Call => "call",
            WordPlace::Owner => "owner",
            WordPlace::Reference => "ref",
            WordPlace::Flags => "flags",
            WordPlace::Asked => "asked",
            WordPlace::FromKind => "from_kind",
            WordPlace::FromOwner => "from_owner",
            WordPlace::FromAt => "from_at",
            WordPlace::FromOff => "from_off",
            WordPlace::ToKind => "to_kind",
            WordPlace::ToOwner => "to_owner",
            WordPlace::ToAt => "to_at",
            WordPlace::ToOff => "to_off",
            WordPlace::Len => "len",
            WordPlace::Lost => "records",
            WordPlace::Source => "source",
            WordPlace::Target => "target",
            WordPlace::Permission => "perm",
            WordPlace::Dumped => "entry",
        }
    }
}
