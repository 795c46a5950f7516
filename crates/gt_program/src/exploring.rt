//! Explorations of scripts.
ghost use Rattle.std.specs.Prelude.{◌≡◌, ℕ, List, IfSome, take};
ghost use Rattle.std.specs.Option.{option_map};
ghost use Rattle.gt_text.specs.Streams.{OfInput};
ghost use Rattle.gt_text.specs.declared.streams.TheConstants.{READ_LIMIT};
ghost use Rattle.gt_command_line.specs.Commands.{sought_by};
ghost use Rattle.gt_command_line.specs.Files.{file_name_of};
ghost use Rattle.gt_file_commands.specs.Working.{known_input, DoesOnFile, Works};
ghost use Rattle.gt_file_commands.specs.declared.outcome.Outcome.TheVariants.{Unknown};
ghost use Rattle.gt_program.specs.Obeying.{explore_format, explored_ending, verdict_outcome, FindsText};
ghost use Rattle.gt_program.specs.Obeying.{IsAskedFor, Searches, SearchesPlain, SearchesTexts, Seeks};
ghost use Rattle.gt_program.specs.Obeying.{unread_failure, MovesExplored, OneExplored, RacesSearched, SeeksText, SummaryExplored};
ghost use Rattle.gt_program.specs.Obeying.{precedence_asked};
ghost use Rattle.gt_program.specs.declared.exploring.SearchAsked.TheVariants.{Moves, Together};

use crate::choosing::{search_choices, source_with_choice};
use crate::moments::search_moment;
use crate::progress::Progress;
use gt_command_line::{Exploration, Format, SearchOptions};
use gt_command_reasons::{CopyingReader, KeptInput, Reasons};
use gt_explore_answers::{ExploreFormat, ExploreOptions, ExploreRequest};
use gt_explore_choices::ChoicesFault;
use gt_explore_claims::{ClaimsOptions, explore_claims, explore_named};
use gt_explore_faults::{ClaimsFault, ExploreFault};
use gt_explore_moments::MomentOptions;
use gt_explore_precedence::{PrecedenceOptions, explore_preceding, has_precedence};
use gt_explore_racing::{RaceOptions, RaceRequest, explore_races};
use gt_explore_search::SearchWatch;
use gt_explore_summary::{SummaryOptions, SummaryRequest, summarize};
use gt_explore_tracing::{TraceOptions, TraceRequest, trace_bytes};
use gt_explore_verdict::Verdict;
use gt_file_commands::{Context, Failure, Outcome, TextSource, finish, read_fault, read_given};
use gt_script_runs::PlayFault;
use gt_text::{ReadFault, read_text, text_of};
use std::alloc::Global;
use std::io::{Read, Write};
use std::time::Clock;

/// What is asked about a script: one request about its texts, the verdicts on several claims, a summary, the moves that
/// lead to a text, the verdict on a claim about what entries show, or the races, up to a number of states.
#[derive(Clone, Copy)]
pub(crate) enum SearchAsked<'w> {
    One(ExploreOptions<'w>),
    Several(ClaimsOptions<'w>),
    Together(SummaryOptions),
    Moves(TraceOptions),
    Moment(MomentOptions<'w>),
    Races(RaceOptions),
}

// Returns the format of an exploration.
fn explore_format(format: Format) -> ExploreFormat
    ensures { result ≡ explore_format format }
{
    match format {
        Format::Text => ExploreFormat::Text,
        Format::Json => ExploreFormat::Json,
    }
}

// Returns what is asked for with a summary.
fn together_asked<'w>(
    request: SummaryRequest,
    states: usize,
    format: ExploreFormat,
) -> SearchAsked<'w>
    ensures { result ≡ Together (record { request = request; states = states; format = format }) }
{
    SearchAsked::Together(SummaryOptions {
        request,
        states,
        format,
    })
}

// Returns what is asked for with the moves that lead to a text.
fn moves_asked_for<'w>(
    request: TraceRequest,
    states: usize,
    format: ExploreFormat,
) -> SearchAsked<'w>
    ensures { result ≡ Moves (record { request = request; states = states; format = format }) }
{
    SearchAsked::Moves(TraceOptions {
        request,
        states,
        format,
    })
}

// Returns what is asked for with these options.
fn asked_for<'w>(asked: Exploration<'w>, states: usize, format: ExploreFormat) -> SearchAsked<'w>
    ensures { IsAskedFor (sought_by asked.entry) states format result }
{
    let request = match asked {
        Exploration::Texts => ExploreRequest::Texts,
        Exploration::Decide { claim, expression } => ExploreRequest::Decide { claim, expression },
        Exploration::Claims(claims) => {
            return SearchAsked::Several(ClaimsOptions {
                claims,
                states,
                format,
            });
        }
        Exploration::Summary => {
            return together_asked(SummaryRequest::Answers, states, format);
        }
        Exploration::Difference(one, other) => {
            return together_asked(SummaryRequest::Difference(one, other), states, format);
        }
        Exploration::NeverState(claim) => {
            return SearchAsked::Moment(MomentOptions { claim, states });
        }
        Exploration::Races => {
            return SearchAsked::Races(RaceOptions {
                request: RaceRequest::Lines,
                states,
            });
        }
        Exploration::RaceWitness(number) => {
            return SearchAsked::Races(RaceOptions {
                request: RaceRequest::Witness(number),
                states,
            });
        }
        Exploration::Witness(number) => ExploreRequest::Witness(number),
        Exploration::Witnesses => ExploreRequest::Witnesses,
        Exploration::Trace(number) => {
            return moves_asked_for(TraceRequest::Trace(number), states, format);
        }
        Exploration::Diagram(number) => {
            return moves_asked_for(TraceRequest::Diagram(number), states, format);
        }
    };
    SearchAsked::One(ExploreOptions {
        request,
        states,
        format,
    })
}

/// Returns the outcome of a verdict.
pub(crate) fn of_verdict(verdict: Verdict) -> Outcome
    ensures { result ≡ verdict_outcome verdict }
{
    match verdict {
        Verdict::Holds => Outcome::Yes,
        Verdict::Fails => Outcome::No,
        Verdict::Undecided => Outcome::Unknown,
    }
}

// Summarizes the texts that the script in these bytes may give.
fn summary_asked<W: Write, X: SearchWatch>(
    alloc: Global,
    options: &SummaryOptions,
    input: &[u8],
    out: &mut W,
    watch: &mut X,
) -> Result<Verdict, ClaimsFault>
    ensures { (all : List ℕ) → input.now ≡ take READ_LIMIT all →
        SummaryExplored options.now all (W.contents out.old) (W.contents out.new) result }
{
    match summarize(alloc, options, input, out, watch) {
        Ok(verdict) => Ok(verdict),
        Err(fault) => Err(ClaimsFault::Explore(fault)),
    }
}

// Prints the moves that lead to a text that the script in these bytes may give.
fn moves_asked<W: Write, X: SearchWatch>(
    alloc: Global,
    options: &TraceOptions,
    input: &[u8],
    out: &mut W,
    watch: &mut X,
) -> Result<Verdict, ClaimsFault>
    ensures { (all : List ℕ) → input.now ≡ take READ_LIMIT all →
        MovesExplored options.now all (W.contents out.old) (W.contents out.new) result }
{
    match trace_bytes(alloc, options, input, out, watch) {
        Ok(verdict) => Ok(verdict),
        Err(fault) => Err(ClaimsFault::Explore(fault)),
    }
}

// Prints the races of the script in these bytes, or a script that shows one of them, and adds the reason of a fault.
fn search_races<W: Write, X: SearchWatch>(
    alloc: Global,
    options: &RaceOptions,
    input: &[u8],
    out: &mut W,
    reasons: &mut Reasons,
    watch: &mut X,
) -> Result<Outcome, Failure>
    ensures { (all : List ℕ) → input.now ≡ take READ_LIMIT all →
        SearchesTexts (RacesSearched options.now all (W.contents out.old) (W.contents out.new)) result }
{
    match explore_races(alloc, options, input, out, watch) {
        Ok(verdict) => Ok(of_verdict(verdict)),
        Err(fault) => {
            reasons.add_race(&KeptInput::of(alloc, input), &fault);
            Err(Failure::Explore(ClaimsFault::Explore(fault)))
        }
    }
}

/// Returns the claim of a request whose expression has terms of order.
pub(crate) fn precedence_asked<'w>(asked: &ExploreOptions<'w>) -> Option<PrecedenceOptions<'w>>
    ensures { result ≡ precedence_asked asked.now }
{
    let ExploreRequest::Decide { claim, expression } = asked.request else {
        return None;
    };
    if !has_precedence(expression.as_bytes()) {
        return None;
    }
    Some(PrecedenceOptions {
        claim,
        expression,
        states: asked.states,
        format: asked.format,
    })
}

// Answers one request on the texts that the script in these bytes may give.
fn explore_one<W: Write, X: SearchWatch>(
    alloc: Global,
    asked: &ExploreOptions,
    input: &[u8],
    out: &mut W,
    watch: &mut X,
) -> Result<Verdict, ClaimsFault>
    ensures { (all : List ℕ) → input.now ≡ take READ_LIMIT all →
        OneExplored asked.now all (W.contents out.old) (W.contents out.new) result }
{
    let Some(claim) = precedence_asked(asked) else {
        return explore_named(alloc, asked, input, out, watch);
    };
    match text_of(input) {
        Ok(source) => explore_preceding(alloc, &claim, source, out, watch),
        Err(_) => explore_named(alloc, asked, input, out, watch),
    }
}

// Returns the ending of an exploration of texts with this result, and adds the reason of a fault.
fn explored_ending(
    alloc: Global,
    input: &[u8],
    explored: Result<Verdict, ClaimsFault>,
    reasons: &mut Reasons,
) -> Result<Outcome, Failure>
    ensures { result ≡ explored_ending explored }
{
    match explored {
        Ok(verdict) => Ok(of_verdict(verdict)),
        Err(fault) => {
            reasons.add_explore(&KeptInput::of(alloc, input), &fault);
            Err(Failure::Explore(fault))
        }
    }
}

// Explores a script without choices, and adds the reason of a fault.
fn search_plain<W: Write, X: SearchWatch>(
    alloc: Global,
    asked: &SearchAsked,
    input: &[u8],
    out: &mut W,
    reasons: &mut Reasons,
    watch: &mut X,
) -> Result<Outcome, Failure>
    ensures { (all : List ℕ) → input.now ≡ take READ_LIMIT all →
        SearchesPlain asked.now all (W.contents out.old) (W.contents out.new) result }
{
    match asked {
        SearchAsked::One(options) => {
            let explored = explore_one(alloc, options, input, out, watch);
            explored_ending(alloc, input, explored, reasons)
        }
        SearchAsked::Several(options) => {
            let claimed = explore_claims(alloc, options, input, out, watch);
            explored_ending(alloc, input, claimed, reasons)
        }
        SearchAsked::Together(options) => {
            let summed = summary_asked(alloc, options, input, out, watch);
            explored_ending(alloc, input, summed, reasons)
        }
        SearchAsked::Moves(options) => {
            let traced = moves_asked(alloc, options, input, out, watch);
            explored_ending(alloc, input, traced, reasons)
        }
        SearchAsked::Moment(options) => {
            search_moment(alloc, options, input, out, reasons, watch)
        }
        SearchAsked::Races(options) => { search_races(alloc, options, input, out, reasons, watch) }
    }
}

// Explores the script in these bytes, by its choices if it has some.
fn search_text<W: Write, X: SearchWatch>(
    alloc: Global,
    asked: &SearchAsked,
    input: &[u8],
    out: &mut W,
    reasons: &mut Reasons,
    watch: &mut X,
) -> Result<Outcome, Failure>
    ensures { (all : List ℕ) → input.now ≡ take READ_LIMIT all →
        Searches asked.now all (W.contents out.old) (W.contents out.new) result }
{
    match source_with_choice(alloc, input) {
        Ok(Some(source)) => search_choices(alloc, asked, source, out, reasons, watch),
        Ok(None) => search_plain(alloc, asked, input, out, reasons, watch),
        Err(_) => Err(Failure::Choices(ChoicesFault::Memory)),
    }
}

// Returns that the script of a reader was not read, and adds the reason.
fn unread(error: ReadFault, kept: &KeptInput, reasons: &mut Reasons) -> Failure
    ensures { result ≡ unread_failure error }
{
    let fault = ClaimsFault::Explore(ExploreFault::Play(PlayFault::from(error)));
    reasons.add_explore(kept, &fault);
    Failure::Explore(fault)
}

// Explores the script of a reader.
fn search<R: Read, W: Write, X: SearchWatch>(
    alloc: Global,
    asked: &SearchAsked,
    reader: &mut R,
    out: &mut W,
    reasons: &mut Reasons,
    watch: &mut X,
) -> Result<Outcome, Failure>
    ensures { OfInput (R.remaining reader.old) (λ input.
        Searches asked.now input (W.contents out.old) (W.contents out.new) result) }
{
    let mut input = CopyingReader::new(alloc, reader);
    match read_text(alloc, &mut input) {
        Ok(text) => search_text(alloc, asked, text.as_slice(), out, reasons, watch),
        Err(error) => Err(unread(error, &input.kept, reasons)),
    }
}

// Explores the script of the named file, or of the standard input.
fn search_on<R: Clock, T: TextSource, W: Write, E: Eprint>(
    context: &Context<R, T, E>,
    asked: &SearchAsked,
    name: Option<&str>,
    out: &mut W,
    reasons: &mut Reasons,
) -> Result<Outcome, Failure>
    ensures { IfSome (known_input (T.file context.now.texts.now) (T.input context.now.texts.now) name.entry)
        (λ input. DoesOnFile (Searches asked.now) (file_name_of name.entry) input (W.contents out.old)
        (W.contents out.new) result) }
{
    let mut watch = Progress::begin_search(context);
    match name {
        None => {
            let mut input = context.texts.input();
            search(context.alloc, asked, &mut input, out, reasons, &mut watch)
        }
        Some(name) => match context.texts.open(name) {
            Ok(mut file) => search(context.alloc, asked, &mut file, out, reasons, &mut watch),
            Err(error) => {
                reasons.add_unread(&error);
                Err(Failure::File(read_fault(&error)))
            }
        },
    }
}

// Explores the script of the named file, or of the standard input, and returns the outcome.
fn search_asked<R: Clock, T: TextSource, W: Write, E: Eprint>(
    context: &Context<R, T, E>,
    asked: &SearchAsked,
    file: Option<&str>,
    out: &mut W,
    reasons: &mut Reasons,
) -> Outcome
    ensures { Works (Searches asked.now) Unknown (file_name_of file.entry)
        (known_input (T.file context.now.texts.now) (T.input context.now.texts.now) file.entry)
        (W.contents out.old) (W.contents out.new) result }
{
    let ending = search_on(context, asked, file, out, reasons);
    finish(context, ending, Outcome::Unknown, reasons)
}

/// Explores the script of the named file, or of the standard input, and returns the outcome.
pub(crate) fn explore<'a, R: Clock, T: TextSource, W: Write, E: Eprint>(
    context: &Context<R, T, E>,
    asked: Exploration<'a>,
    options: SearchOptions<'a>,
    out: &mut W,
    reasons: &mut Reasons<'a>,
) -> Outcome
    ensures { Works (Seeks (sought_by asked.entry) options.entry.format options.entry.states) Outcome.Unknown
        (file_name_of options.entry.file)
        (known_input (T.file context.now.texts.now) (T.input context.now.texts.now) options.entry.file)
        (W.contents out.old) (W.contents out.new) result }
{
    let asked = asked_for(asked, options.states, explore_format(options.format));
    search_asked(context, &asked, options.file, out, reasons)
}

// Decides whether this text is one of those of the script in the named file, or in the standard input.
fn find_bytes<'a, R: Clock, T: TextSource, W: Write, E: Eprint>(
    context: &Context<R, T, E>,
    text: &[u8],
    options: SearchOptions<'a>,
    out: &mut W,
    reasons: &mut Reasons<'a>,
) -> Outcome
    ensures { Works (SeeksText text.now options.entry.format options.entry.states) Unknown
        (file_name_of options.entry.file)
        (known_input (T.file context.now.texts.now) (T.input context.now.texts.now) options.entry.file)
        (W.contents out.old) (W.contents out.new) result }
{
    let asked = SearchAsked::One(ExploreOptions {
        request: ExploreRequest::Has(text),
        states: options.states,
        format: explore_format(options.format),
    });
    reasons.begin_file(options.file);
    search_asked(context, &asked, options.file, out, reasons)
}

/// Decides whether the text of a file is one of those of a script.
pub(crate) fn find_text<'a, R: Clock, T: TextSource, W: Write, E: Eprint>(
    context: &Context<R, T, E>,
    given: &'a str,
    options: SearchOptions<'a>,
    out: &mut W,
    reasons: &mut Reasons<'a>,
) -> Outcome
    ensures { FindsText given.entry.now options.entry.format options.entry.states (T.file context.now.texts.now)
        (T.input context.now.texts.now) (option_map (λ f. f.now) options.entry.file)
        (W.contents out.old) (W.contents out.new) result }
{
    match read_given(context, given, reasons) {
        Some(text) => find_bytes(context, text.as_slice(), options, out, reasons),
        None => Outcome::Unknown,
    }
}
