//! Colours on a terminal.
use scl_explain::Paint;

/// What the parts of a text begin and end with.
#[derive(Clone, Copy)]
pub(crate) struct Codes {
    /// What a title begins with.
    pub(crate) title: &'static str,
    /// What good news begins with.
    pub(crate) good: &'static str,
    /// What bad news begins with.
    pub(crate) bad: &'static str,
    /// What ends each of them.
    pub(crate) end: &'static str,
}

pub(crate) fn codes_of(paint: Paint) -> Codes {
    match paint {
        Paint::Colours => Codes {
            title: "\x1b[1m",
            good: "\x1b[32m",
            bad: "\x1b[31m",
            end: "\x1b[0m",
        },
        Paint::Plain => Codes {
            title: "",
            good: "",
            bad: "",
            end: "",
        },
    }
}
