//! What is said of a word that begins no statement that gthost reads.
use gt_findings::{push_hint, push_quoted_word};
use gt_text::push_text;
use std::alloc::{AllocError, Global};

// The first words of the statements of a policy.
static STATEMENTS: [&str; 4] = ["type", "attribute", "typeattribute", "allow"];

// Returns whether a word begins a statement that FLASK policies have and gthost does not read, or a macro of their
// sources.
fn is_of_flask(word: &str) -> bool {
    matches!(
        word,
        "auditallow"
            | "bool"
            | "category"
            | "class"
            | "common"
            | "constrain"
            | "declare_domain"
            | "define"
            | "devicetreecon"
            | "dominance"
            | "dontaudit"
            | "else"
            | "gen_require"
            | "if"
            | "iomemcon"
            | "ioportcon"
            | "level"
            | "mlsconstrain"
            | "mlsvalidatetrans"
            | "module"
            | "optional"
            | "pcidevicecon"
            | "permissive"
            | "pirqcon"
            | "policy_module"
            | "policycap"
            | "range_transition"
            | "require"
            | "role"
            | "role_transition"
            | "roleattribute"
            | "sensitivity"
            | "sid"
            | "tunable"
            | "type_change"
            | "type_transition"
            | "typealias"
            | "typebounds"
            | "user"
            | "validatetrans"
    )
}

// Returns why a word is outside the supported part of the language, if it is known elsewhere.
fn known_text(word: &str) -> Option<&'static str> {
    match word {
        "policy" | "triple" | "domain" | "do" => Some(
            " begins a line of a script; a script is checked with check --script",
        ),
        "neverallow" | "neverflow" => {
            Some(" begins a statement for check --never; see docs/POLICY.md")
        }
        "alias" => Some(" is not supported here; see docs/POLICY.md"),
        "*" | "~" => Some(" is not supported here"),
        _ if is_of_flask(word) => Some(
            " is not supported; contrib/flask.sh leaves out or translates such statements, see docs/POLICY.md",
        ),
        _ => None,
    }
}

/// Appends a word and why it is outside the supported part of the language, with the first word of a statement that may
/// be meant.
pub(crate) fn push_outside(alloc: Global, out: &mut Vec<u8>, word: &str) -> Result<(), AllocError> {
    push_quoted_word(out, word)?;
    if let Some(text) = known_text(word) {
        return push_text(out, text);
    }
    push_text(
        out,
        " is not supported; the supported statements are type, attribute, typeattribute and allow",
    )?;
    push_hint(alloc, out, word, STATEMENTS.as_slice())
}
