//! A sentence for people for each reason why a command line is refused.
#![tactic(auto)]

macro_rules! explanation {
    ($text:literal $($reason:literal)*) => {
        ($text, &[$($reason),*])
    };
}

mod explain;
mod table;

pub use explain::{Explanation, explanations, known_sentence, of_table, sentence};
