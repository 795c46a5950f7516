//! The texts of help, at most 80 columns wide.

pub(crate) const HELP: &str =
    "Plays, explores and checks Xen-style grant tables under a FLASK policy

Usage: gthost <COMMAND>

Commands:
  play     Play a script line by line and print each answer
  run      Run each domain of a script in a thread of its own
  explore  Print every output that `run` could give, over all interleavings
  policy   List what a policy allows
  rules    Explain the refusal rules N1 to N26: status, cause, remedy
  check    Report errors and useless statements in a policy or a script
  why      Show by which statements a policy allows something
  flow     Show a path by which bytes of a type reach another one
  entries  Decode a dump of grant-table frames
  help     Print help, or the help of a command

Options:
  -h, --help     Print help
  -V, --version  Print version

A script holds a policy, the domains, and the calls that they make. An answer
such as `N19 -1` names the rule that refused the call, and its status: see
`gthost rules`.

Exit status of play, run and policy: 0 on success, 1 on a fault of the script,
the policy, a file, memory or a thread.

Exit status of explore, rules, check, why, flow and entries: 0 if the answer is
yes or nothing is wrong, 1 if the answer is no, 2 if there is no answer: a
missing file, an unknown name, a text that can't be read, or a search given up.

A wrong command line exits with status 2.

Try: gthost play examples/first.gt
     gthost run examples/ring.gt
     gthost explore examples/revoke_race.gt
     gthost policy examples/split_driver.te
";

pub(crate) const PLAY: &str = "Play a script line by line and print each answer

Usage: gthost play [OPTIONS] [FILE]

Arguments:
  [FILE]  The script [default: standard input]

Options:
      --audit               Print a line for each hypercall after all answers
  -v, --verbose             Explain faults and policy refusals on stderr
      --format <text|json>  Print text, or a JSON object a line [default: text]
  -h, --help                Print help
";

pub(crate) const RUN: &str =
    "Run each domain of a script in a thread of its own and print its answers

Usage: gthost run [OPTIONS] [FILE]

Arguments:
  [FILE]  The script [default: standard input]

Options:
      --audit               Print a line for each hypercall after all answers
  -v, --verbose             Explain faults and policy refusals on stderr
      --format <text|json>  Print text, or a JSON object a line [default: text]
  -h, --help                Print help
";

pub(crate) const EXPLORE: &str = "Print every output that `run` could give, over all interleavings

Usage: gthost explore [OPTIONS] [FILE]

Arguments:
  [FILE]  The script [default: standard input]

Options:
  -v, --verbose          Explain faults on stderr [always on]
      --find <EXPR>      Print only the outputs that satisfy EXPR
      --never <EXPR>     Claim that no output satisfies EXPR
      --always <EXPR>    Claim that each output satisfies EXPR
      --claims <CLAIMS>  Decide the claims of these lines: never EXPR, and so on
      --has <TEXT>       Print the number of the output in the file TEXT
      --witness <N|all>  Print a script for `play` that gives output N, or each
      --trace <N>        Print the steps that lead to output N, a line each
      --summary          Print the lines whose answers vary, and how often
      --diff <K,L>       Print the lines in which outputs K and L differ
      --never-state <S>  Claim that entries never show S at one moment
      --races            Print the pairs of lines that race for a byte
      --states <N>       Stop after N states [default: 1000000]
      --format <FORM>    Print text, json, or mermaid (--trace) [default: text]
  -h, --help             Print help

EXPR is terms with ! (not), & (and), | (or) and brackets: WORD (an answer has
it), LINE=ANSWER (the answer to this line of the script begins so), ID:ANSWER (an
answer of this domain does). LINE may be a NAME: `do 1 revoke 0 as NAME`. A term
that no answer can meet is refused. LINE<LINE, in a single claim, is a run in which
the first call is answered before the second begins. Several claims are decided
together, and print a line each.

S is terms ID.REF:WORD with ! (not), & (and) and | (or), without brackets: entry
REF of domain ID shows WORD, which is none, invalid, page, sub, via, rw, ro, or
FIELD=N, FIELD<N or FIELD>N, for a FIELD that `show` prints: frame, off, len, to,
ref, gen, reads or writes; or for grantee, the domain after the kind.

With --races, --witness <N> prints a script for `play` that shows race N.

A call `maybe ID CALL` of the script may be left out, and the list of a domain may
end at a line `leave ID`.

Exit status: 0 if each claim holds, TEXT is an output, or all were found; 1 if one
does not hold, or TEXT is none of them; 2 if one is not decided, or TEXT has not
the lines of an output. A single claim that fails prints a script for `play`.
Ctrl-C ends a search as --states does, with the outputs found until then.
";

pub(crate) const POLICY: &str =
    "List what a policy allows: SOURCE TARGET PERMISSION for each allowed triple

Usage: gthost policy [OPTIONS] [FILE]

Arguments:
  [FILE]  The policy [default: standard input]

Options:
  -v, --verbose             Explain a fault on stderr
      --format <text|json>  Print text, or a JSON object a line [default: text]
  -h, --help                Print help
";

pub(crate) const RULES: &str = "Explain the refusal rules N1 to N26: status, cause, remedy

Usage: gthost rules [OPTIONS] [RULE]

Arguments:
  [RULE]  One rule, such as N19 or 19 [default: all rules]

Options:
  -v, --verbose  Explain faults on stderr [always on]
  -h, --help     Print help
";

pub(crate) const CHECK: &str = "Report errors and useless statements in a policy or a script

Usage: gthost check [OPTIONS] [FILE]...

Arguments:
  [FILE]...  The policies, up to 8, each checked alone [default: standard input]

Options:
      --script              Check a script, with its policy block
  -v, --verbose             Explain faults on stderr [always on]
      --never <NEVER>       Report what breaks a neverallow statement of NEVER
      --format <text|json>  Print text, or a JSON object a line [default: text]
  -h, --help                Print help
";

pub(crate) const WHY: &str = "Show whether a policy allows something, and by which statements

Usage: gthost why [OPTIONS] [SOURCE] [TARGET] [PERMISSION] [FILE]

Arguments:
  [SOURCE]      The type that acts, or an attribute for all its types
  [TARGET]      The type that it acts on, or an attribute
  [PERMISSION]  map_read, map_write, unmap, transfer, setup, copy or query
  [FILE]        The policy [default: standard input]

Options:
      --each     Answer for each pair of types, a line each
  -v, --verbose  Explain faults on stderr [always on]
  -h, --help     Print help

A - as SOURCE, TARGET or PERMISSION means any. With one word alone, it is the
FILE, and the questions are lines SOURCE TARGET PERMISSION of standard input.

If the question is about several pairs of types, `allowed` means that some pair
is allowed, and the last line is how many. With --each it means that all are.
";

pub(crate) const FLOW: &str =
    "Show a path by which bytes of one type reach another one under a policy

Usage: gthost flow [OPTIONS] [SOURCE] [TARGET] [FILE]

Arguments:
  [SOURCE]  The type with the bytes
  [TARGET]  The type that they may reach
  [FILE]    The policy [default: standard input]

Options:
      --script              Take the policy block of a script
  -v, --verbose             Explain faults on stderr [always on]
      --trust <TYPES>       Leave out stores by these types, joined by commas
      --format <text|json>  Print text, or a JSON object a line [default: text]
  -h, --help                Print help

SOURCE and TARGET are types, attributes, or `-` for each type. An access is a
load, a store or a copy that the policy allows. For one pair the output is the
least number of accesses, and a line for each of them with what it asks for; for
several, the number for each pair.

Exit status: 0 if there is a path, 1 if there is none, 2 if there is no answer.
With --trust, a type that is trusted passes on only what it chooses to store.
";

pub(crate) const ENTRIES: &str =
    "Decode a dump of grant-table frames: a line for each entry that is not zero

Usage: gthost entries [OPTIONS] --version <1|2> [FILE]

Arguments:
  [FILE]  The dump [default: standard input]

Options:
      --hex                 The dump is hexadecimal text
      --all                 Print entries of zeros too
  -v, --verbose             Explain faults on stderr [always on]
      --version <1|2>       The version of the table
      --script <DOM>        Print calls by which domain DOM grants the same
      --format <text|json>  Print text, or a JSON object a line [default: text]
  -h, --help                Print help
";
