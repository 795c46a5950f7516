//! The style of the output.

/// The style of the output: on a terminal its width, and whether it has colours.
#[derive(Clone, Copy)]
pub struct Style {
    /// The number of columns, or None for an output that is not a terminal.
    pub width: Option<usize>,
    /// Whether carets are coloured.
    pub is_colored: bool,
    /// Whether a long search shows on the standard error how far it is.
    pub shows_progress: bool,
}

impl Style {
    /// Returns the style of an output that is not a terminal.
    pub fn plain() -> Style {
        Style {
            width: None,
            is_colored: false,
            shows_progress: false,
        }
    }
}
