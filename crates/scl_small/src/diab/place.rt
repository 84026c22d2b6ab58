//! Where Diab's options go.
use super::data::{ArgData, Kind};
use crate::place::{Place, Placed};

impl Placed for ArgData {
    ghost use Rattle.scl_small.specs.DiabReading.{place};

    ghost place = { place };

    fn place(kind: Kind) -> Place {
        match kind {
            Kind::TooHardFlag => Place::Refused,
            Kind::TooHard => Place::Refused,
            Kind::DoCompilation => Place::CompileFlag,
            Kind::Output => Place::Output,
            Kind::PassThrough => Place::Common,
            Kind::PreprocessorArgument => Place::Preprocessor,
            Kind::PreprocessorArgumentPath => Place::Preprocessor,
            Kind::DepArgumentFlag => Place::Dependency,
            Kind::DepArgument => Place::Dependency,
            Kind::DepArgumentPath => Place::Dependency,
        }
    }
}
