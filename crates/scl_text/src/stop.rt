//! Why a reading ends without a record.
ghost use Rattle.std.specs.Prelude.{◌≡◌};
ghost use Rattle.scl_text.specs.Stops.{answer_to};

use crate::records::{CompilerArguments, ParsedArguments};
use crate::refusal::Refusal;
use scl_args::Mem;
use std::alloc::{AllocError, AllocFailed};

/// Why a step of a reading gives no value.
#[derive(Debug, Drop)]
pub enum Stop {
    /// The command line is refused.
    Refused(Refusal),
    /// A memory allocation failed.
    Memory,
}

impl From<Refusal> for Stop {
    ghost use Rattle.std.specs.Prelude.{◌≡◌};
    ghost use Rattle.scl_text.specs.declared.stop.Stop.TheVariants.{Refused};

    ghost from_gives = { λ refusal stop. stop ≡ Refused refusal };

    fn from(refusal: Refusal) -> Stop {
        Stop::Refused(refusal)
    }
}

impl From<AllocError> for Stop {
    ghost use Rattle.std.specs.Prelude.{◌≡◌};
    ghost use Rattle.scl_text.specs.declared.stop.Stop.TheVariants.{Memory};

    ghost from_gives = { λ _ stop. stop ≡ Memory };

    fn from(_: AllocError) -> Stop {
        Stop::Memory
    }
}

impl<T: Drop> From<AllocFailed<T>> for Stop {
    ghost use Rattle.std.specs.Prelude.{◌≡◌};
    ghost use Rattle.scl_text.specs.declared.stop.Stop.TheVariants.{Memory};

    ghost from_gives = { λ _ stop. stop ≡ Memory };

    fn from(_: AllocFailed<T>) -> Stop {
        Stop::Memory
    }
}

/// The answer of a reading: its record, or its refusal with the text beside the reason (docs/RULES.md, Readings).
pub fn into_answer(read: Result<ParsedArguments, Stop>) -> Mem<CompilerArguments<ParsedArguments>>
    ensures { result ≡ answer_to read }
{
    match read {
        Ok(record) => Ok(CompilerArguments::Ok(record)),
        Err(Stop::Refused(refusal)) => Ok(refusal.into_answer()),
        Err(Stop::Memory) => Err(AllocError),
    }
}
