//! The execution of a plan.
ghost use Rattle.gt_command_line.specs.Commands.{asked_by_plan};
ghost use Rattle.gt_program.specs.Obeying.{Obeys};

use crate::exploring::{explore, find_text};
use gt_check_command::WhyRequest;
use gt_command_line::Invocation;
use gt_command_reasons::Reasons;
use gt_file_commands::{
    Context, Outcome, TextSource, answer, answer_lines, check_files, check_never_files,
    flow_format, list, play, print_rules, show_entries, show_flow,
};
use gt_policy_questions::FlowQuestion;
use gt_policy_statements::WhyQuestion;
use gt_run_command::run_asked;
use std::io::Write;
use std::sync::Wait;
use std::thread::Threads;
use std::time::Clock;

/// Executes the plan. It asks for something, so its outcome does not depend on that of a wrong command line.
pub(crate) fn follow<'a, R: Threads + Wait + Sync + Clock, T: TextSource, W: Write, E: Eprint>(
    context: &Context<R, T, E>,
    invocation: Invocation<'a>,
    out: &mut W,
    reasons: &mut Reasons<'a>,
) -> Outcome
    ensures { (failed : Outcome) → Obeys (asked_by_plan invocation.entry) failed context.now.style.width
        (T.file context.now.texts.now) (T.input context.now.texts.now)
        (W.contents out.old) (W.contents out.new) result }
{
    match invocation {
        Invocation::Play(options) => play(context, options, out, reasons),
        Invocation::Run(options) => run_asked(context, options, out, reasons),
        Invocation::Explore { asked, options } => explore(context, asked, options, out, reasons),
        Invocation::ExploreHas { given, options } => {
            find_text(context, given, options, out, reasons)
        }
        Invocation::Policy { format, file, .. } => { list(context, format, file, out, reasons) }
        Invocation::Rules { rule } => {
            print_rules(context.alloc, out, context.err, rule, context.style.width)
        }
        Invocation::Check { script, files } => check_files(context, script, &files, out, reasons),
        Invocation::CheckNever { never, files } => {
            check_never_files(context, never, &files, out, reasons)
        }
        Invocation::Why {
            source,
            target,
            permission: perm,
            each,
            file,
        } => {
            let question = WhyQuestion {
                source,
                target,
                perm,
            };
            let request = WhyRequest { question, each };
            answer(context, request, file, out, reasons)
        }
        Invocation::WhyLines { each, file } => answer_lines(context, each, file, out, reasons),
        Invocation::Flow {
            source,
            target,
            options,
            file,
        } => {
            let question = FlowQuestion {
                source,
                target,
                trusted: options.trusted,
                format: flow_format(options.format),
            };
            show_flow(context, options.script, question, file, out, reasons)
        }
        Invocation::Entries { dump, format, file } => {
            show_entries(context, dump, format, file, out, reasons)
        }
    }
}
