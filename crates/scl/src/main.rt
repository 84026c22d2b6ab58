//! The program for people and build tools: it explains compile commands, gives them, and reads whole compile databases (see
//! `scl --help`).
#![tactic(auto)]

use scl_catalogue_default::{built_in, over_built_in};
use scl_catalogue_text::ReadError;
use scl_describe::Catalogue;
use scl_program::{BuiltIn, answer};
use std::alloc::Global;
use std::process::ExitCode;

/// What is built in of what is known of compilers.
struct Known;

impl BuiltIn for Known {
    fn catalogue(&self, alloc: Global) -> Result<Catalogue, ReadError> {
        built_in(alloc)
    }

    fn over(&self, alloc: Global, text: &[u8]) -> Result<Catalogue, ReadError> {
        over_built_in(alloc, text)
    }
}

fn main(rt: HostRuntime) -> ExitCode {
    ExitCode::from(answer(&rt, &Known))
}
