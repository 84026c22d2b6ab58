//! Whether what a command line makes may be kept under a key, for a person.
use scl_cl::Mem;
use scl_describe::Kept;
use scl_key::{NoKey, Reason};
use scl_shell::shown_briefly;
use std::alloc::Global;

/// The reasons for which there is no key, in the order in which they are listed.
pub(crate) static REASONS: [Reason; 6] = [
    Reason::WritesUnnamed,
    Reason::TextHides,
    Reason::OutputIsNoFile,
    Reason::OnePathTwice,
    Reason::Hazard,
    Reason::Effect,
];

/// What it means that nothing is known of an option.
pub(crate) const UNKNOWN: &str = "No table says what this option reads and writes.";

/// What a reason means for which there is no key (docs/PROTOCOL.md, A key).
pub(crate) fn sentence_of(reason: Reason) -> &'static str {
    match reason {
        Reason::WritesUnnamed => "The compiler writes a file that no row names.",
        Reason::TextHides => "The preprocessed text may lack a part of what is compiled.",
        Reason::OutputIsNoFile => "An output is no file that can be put back.",
        Reason::OnePathTwice => "Two outputs have this path.",
        Reason::Hazard => "The compiler does something else with the built command.",
        Reason::Effect => "An option reads, writes, loads or asks what no key can stand for.",
    }
}

fn reason_text(alloc: Global, why: &NoKey) -> Mem<String> {
    let (name, sentence) = (why.reason.name(), sentence_of(why.reason));
    let word = shown_briefly(alloc, &why.word)?;
    format!(in alloc; "no {name} {word}: {sentence}")
}

fn unknown_text(alloc: Global, word: &[u8]) -> Mem<String> {
    let word = shown_briefly(alloc, word)?;
    format!(in alloc; "unknown {word}: {UNKNOWN}")
}

/// What is said of keeping, in the words of its rows, with a sentence if it is not `yes`.
pub(crate) fn kept_texts(alloc: Global, kept: &Kept) -> Mem<Vec<String>> {
    let mut texts = Vec::new(alloc);
    match kept {
        Kept::Nothing => {}
        Kept::Under(_) => texts.push(String::from_str(alloc, "yes")?)?,
        Kept::Unknown(word) => texts.push(unknown_text(alloc, word)?)?,
        Kept::Not(reasons) => {
            for why in reasons {
                texts.push(reason_text(alloc, why)?)?;
            }
        }
    }
    Ok(texts)
}
