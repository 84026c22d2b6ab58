//! What the program `scl` does for people and build tools (see `scl --help`); what is built in of compilers is handed in.
#![tactic(auto)]

mod arguments;
mod asked;
mod batch;
mod called;
mod diff;
mod disk;
mod fault;
mod file;
mod known;
mod one;
mod options;
mod progress;
mod tables;
mod why;

use crate::arguments::raw_arguments;
use crate::fault::{Fault, warn};
use scl_catalogue_text::ReadError;
use scl_describe::Catalogue;
use scl_explain::Ending;
use std::alloc::Global;

/// What is built in of what is known of compilers. Its catalogue is read anew in each call, so only what needs it calls.
pub trait BuiltIn {
    /// Reads the catalogue.
    fn catalogue(&self, alloc: Global) -> Result<Catalogue, ReadError>;

    /// Reads this text as a catalogue over it. The line of an error is 0 where the text is right, and what is built in is not.
    fn over(&self, alloc: Global, text: &[u8]) -> Result<Catalogue, ReadError>;
}

fn answer_arguments<B: BuiltIn>(rt: &HostRuntime, built_in: &B) -> Result<Ending, Fault> {
    let arguments = raw_arguments(rt)?;
    options::answer(rt, &arguments, built_in)
}

/// Does what the program's arguments request, and reports what keeps it from that. The status to end with.
pub fn answer<B: BuiltIn>(rt: &HostRuntime, built_in: &B) -> u8 {
    match answer_arguments(rt, built_in) {
        Ok(ending) => ending.status(),
        Err(fault) => {
            if !fault.is_closed() {
                warn(rt, &fault);
            }
            fault.ending().status()
        }
    }
}
