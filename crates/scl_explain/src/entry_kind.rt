//! What an entry of a compile database is.
ghost use Rattle.std.specs.Prelude.{◌≡◌};
ghost use Rattle.scl_reader.specs.AnswersGiven.{answer_of};
ghost use Rattle.scl_explain.specs.Kinds.{kind_of};

use scl_hazards::Hazard as Named;
use scl_reader::{Compilation, CompilerArguments};
use scl_text::records::Cacheable;

/// What an entry is.
#[derive(Clone, Copy, PartialEq, Eq)]
pub enum EntryKind {
    /// It can be cached, and no hazard is named.
    Ok,
    /// A hazard is named.
    Hazard,
    /// It can't be cached, may not be kept, or compiles nothing.
    Refused,
}

impl EntryKind {
    /// What an entry with this answer is, of whose command these hazards are named.
    pub(crate) fn of_answer(
        answer: &CompilerArguments<Compilation>,
        hazards: &[Named<'_>],
    ) -> EntryKind
        ensures { result ≡ kind_of (answer_of answer.now) hazards.now }
    {
        match answer {
            CompilerArguments::Ok(_) if !hazards.is_empty() => EntryKind::Hazard,
            CompilerArguments::Ok(compilation) => match compilation.cacheable {
                Cacheable::Yes => EntryKind::Ok,
                Cacheable::No => EntryKind::Refused,
            },
            CompilerArguments::CannotCache(_, _) | CompilerArguments::NotCompilation => {
                EntryKind::Refused
            }
        }
    }
}
