//! What lines of a request for a lookup say beside the request.
ghost use Rattle.std.specs.Prelude.{◌≡◌};
ghost use Rattle.scl_describe.specs.SettingsRead.{settings_by};
ghost use Rattle.scl_talks.specs.Talks.{for_key, silent, talk_of};

use crate::reply::answer_in;
use scl_cl::TakesLines;
use scl_describe::Settings;
use scl_questions::Answer;
use scl_values::Mem;
use std::alloc::Global;

/// How a line begins that names a base directory.
const BASE: &[u8] = b"setting base ";

/// What lines say beside the request.
#[derive(Debug, Drop)]
pub(crate) struct Talk {
    /// The settings of the description.
    pub(crate) settings: Settings,
    /// The answers so far.
    pub(crate) answers: Vec<Answer>,
}

impl Talk {
    /// Where no line says anything.
    pub(crate) fn new(alloc: Global) -> Talk
        ensures { talk_of result ≡ silent }
    {
        Talk {
            settings: Settings::new(alloc),
            answers: Vec::new(alloc),
        }
    }

    /// Wants the key, with the macros that the runs show: a caller has no rule by which they count.
    pub(crate) fn want_key(&mut self)
        ensures settings { settings_by self.new.settings ≡ for_key (settings_by self.old.settings) }
        ensures answers { self.new.answers ≡ self.old.answers }
    {
        self.settings.keeps_shown = true;
        if let Some(wants) = &mut self.settings.wants {
            wants.key = true;
        }
    }
}

impl TakesLines for Talk {
    ghost use Rattle.scl_talks.specs.Talks as specified;
    ghost use Rattle.scl_talks.specs.Talks.{left, talk_from, talk_of};

    ghost left = { left };

    ghost Made = { specified.Talk };

    ghost made = { λ talk lines. talk_from (talk_of talk) lines };

    fn take_line<'a>(&mut self, alloc: Global, line: &'a [u8]) -> Mem<&'a [u8]> {
        if let Some(answer) = answer_in(alloc, line)? {
            self.answers.push(answer)?;
            return Ok(&[]);
        }
        if line.starts_with(BASE) {
            return Ok(line);
        }
        self.settings.take_line(alloc, line)
    }
}
