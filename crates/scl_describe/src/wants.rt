//! Which parts of a description are wanted.
ghost use Rattle.std.specs.Prelude.{◌≡◌};
ghost use Rattle.scl_describe.specs.Wants.{everything, nothing_more, with_part};

use scl_description::Part;

/// Which parts of a description are wanted, besides what is always reported.
#[derive(Debug, Clone, Copy, PartialEq, Eq)]
pub struct Wants {
    /// The runs of the preprocessor.
    pub runs: bool,
    /// The key, and whether there is one.
    pub key: bool,
    /// What tables report of the compiler: hazards and effects.
    pub tables: bool,
    /// What became of the options.
    pub options: bool,
    /// The questions of the answer.
    pub questions: bool,
}

impl Wants {
    pub(crate) fn everything() -> Wants
        ensures { result ≡ everything }
    {
        Wants {
            runs: true,
            key: true,
            tables: true,
            options: true,
            questions: true,
        }
    }

    /// Only what is always reported.
    pub(crate) fn nothing_more() -> Wants
        ensures { result ≡ nothing_more }
    {
        Wants {
            runs: false,
            key: false,
            tables: false,
            options: false,
            questions: false,
        }
    }

    /// With one more part.
    pub(crate) fn with(self, part: Part) -> Wants
        ensures { result ≡ with_part self part }
    {
        let mut wants = self;
        match part {
            Part::Always => {}
            Part::Runs => wants.runs = true,
            Part::Key => wants.key = true,
            Part::Tables => wants.tables = true,
            Part::Options => wants.options = true,
            Part::Questions => wants.questions = true,
        }
        wants
    }
}
