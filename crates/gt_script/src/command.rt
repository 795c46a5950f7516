//! The commands that take a script.

/// The command that a script is for: `play` or `run`.
#[derive(Clone, Copy)]
pub enum ScriptCommand {
    Play,
    Run,
}
