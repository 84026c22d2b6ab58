//! How the program ends.
ghost use Rattle.std.specs.Prelude.{◌≡◌, false};
ghost use Rattle.scl_reader.specs.AnswersGiven.{answer_of};
ghost use Rattle.scl_describe.specs.DescriptionsGiven.{kept_told};
ghost use Rattle.scl_explain.specs.Endings.{are_named, ending_of, ending_of_command, ending_of_keeping, status_of};

use crate::nuls::some_hold_nul;
use scl_describe::Kept;
use scl_hazards::Hazard;
use scl_reader::{Compilation, CompilerArguments};
use scl_text::records::Cacheable;

/// How the program ends.
#[derive(Debug, Clone, Copy, PartialEq, Eq)]
pub enum Ending {
    /// The request is answered.
    Answered,
    /// Two command lines have no equal keys.
    Different,
    /// The program's own words are wrong.
    Usage,
    /// Out of memory.
    OutOfMemory,
    /// A file can't be read, or the answer not be written.
    FileFailed,
    /// The database is broken, or an entry is not valid; all others are answered.
    BadDatabase,
    /// The outcome can't be cached.
    CannotCache,
    /// Nothing is compiled.
    CompilesNothing,
    /// A hazard is named.
    Hazard,
    /// A word of the command holds a NUL, so no process can be given it.
    HoldsNul,
    /// There is a command, and its result may not be kept in the cache.
    NotKept,
}

/// Whether some hazard is named.
pub(crate) fn are_named(hazards: &[Hazard<'_>]) -> bool
    ensures { result ≡ are_named hazards.now }
{
    !hazards.is_empty()
}

impl Ending {
    fn of_kept(cacheable: Cacheable) -> Ending
        ensures { result ≡ ending_of_command false false cacheable }
    {
        match cacheable {
            Cacheable::No => Ending::NotKept,
            Cacheable::Yes => Ending::Answered,
        }
    }

    fn of_command(has_nul: bool, has_hazard: bool, cacheable: Cacheable) -> Ending
        ensures { result ≡ ending_of_command has_nul has_hazard cacheable }
    {
        if has_nul {
            Ending::HoldsNul
        } else if has_hazard {
            Ending::Hazard
        } else {
            Ending::of_kept(cacheable)
        }
    }

    /// How an answer for a program ends, by whether a hazard ends it.
    pub(crate) fn of_answer(
        program: &[u8],
        answer: &CompilerArguments<Compilation>,
        has_hazard: bool,
    ) -> Ending
        ensures { result ≡ ending_of program.now (answer_of answer.now) has_hazard }
    {
        match answer {
            CompilerArguments::Ok(compilation) => {
                let has_nul = some_hold_nul(program, &compilation.command.arguments);
                Ending::of_command(has_nul, has_hazard, compilation.cacheable)
            }
            CompilerArguments::CannotCache(_, _) => Ending::CannotCache,
            CompilerArguments::NotCompilation => Ending::CompilesNothing,
        }
    }

    /// How it ends where the request is whether the result may be kept under a key, by what is said of keeping it: as command
    /// lines without equal keys do where it may not.
    pub fn of_keeping(cacheable: Cacheable, kept: &Kept) -> Ending
        ensures { result ≡ ending_of_keeping cacheable (kept_told kept.now) }
    {
        match (cacheable, kept) {
            (Cacheable::No, _) => Ending::NotKept,
            (Cacheable::Yes, Kept::Under(_)) => Ending::Answered,
            (Cacheable::Yes, Kept::Nothing | Kept::Unknown(_) | Kept::Not(_)) => Ending::Different,
        }
    }

    /// The status that the program ends with.
    pub fn status(self) -> u8
        ensures { result ≡ status_of self }
    {
        match self {
            Ending::Answered => 0,
            Ending::Different => 1,
            Ending::Usage => 2,
            Ending::OutOfMemory => 3,
            Ending::FileFailed => 4,
            Ending::BadDatabase => 5,
            Ending::CannotCache => 10,
            Ending::CompilesNothing => 11,
            Ending::Hazard => 12,
            Ending::HoldsNul => 13,
            Ending::NotKept => 14,
        }
    }
}
