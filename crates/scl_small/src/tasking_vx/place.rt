//! Where TaskingVX's options go.
use super::data::{ArgData, Kind};
use crate::place::{Place, Placed};

impl Placed for ArgData {
    ghost use Rattle.scl_small.specs.TaskingReading.{place};

    ghost place = { place };

    fn place(kind: Kind) -> Place {
        match kind {
            Kind::TooHardFlag => Place::Refused,
            Kind::TooHard => Place::Refused,
            Kind::NotCompilationFlag => Place::NotCompilation,
            Kind::NotCompilation => Place::NotCompilation,
            Kind::DoCompilation => Place::CompileFlag,
            Kind::Output => Place::Output,
            Kind::PassThrough => Place::Common,
            Kind::PreprocessorArgument => Place::Preprocessor,
            Kind::PreprocessorArgumentPath => Place::Preprocessor,
            Kind::DepFile => Place::DepFile,
        }
    }
}
