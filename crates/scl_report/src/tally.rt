//! What is counted over the entries of a database.
use crate::batch::Named;
use crate::digest::{push_met, push_more};
use crate::keep::{REASONS, UNKNOWN, sentence_of};
use scl_cl::Mem;
use scl_describe::Kept;
use scl_explain::{Counts, Met, meet};
use scl_key::{NoKey, Reason};
use scl_shell::shown_briefly;
use std::alloc::Global;
use std::collections::BTreeMap;

/// How many options are named of which nothing is known.
const MOST: usize = 20;

/// How often outcomes may be kept under a key, and why others may not.
#[derive(Drop)]
pub(crate) struct Keeps {
    kept: u64,
    barred: u64,
    unjudged: u64,
    reasons: BTreeMap<Vec<u8>, Met>,
    words: BTreeMap<Vec<u8>, Met>,
}

/// What is counted over the entries of a database.
#[derive(Drop)]
pub struct Tally {
    /// What they are answered.
    pub counts: Counts,
    /// Whether their outcomes may be kept; nothing unless it is counted.
    pub(crate) keeps: Keeps,
}

/// Whether one of these has this reason.
fn has_reason(reasons: &[NoKey], wanted: Reason) -> bool {
    reasons.iter().any(|why| why.reason == wanted)
}

impl Keeps {
    fn new(alloc: Global) -> Keeps {
        Keeps {
            kept: 0,
            barred: 0,
            unjudged: 0,
            reasons: BTreeMap::new(alloc),
            words: BTreeMap::new(alloc),
        }
    }

    /// Counts each reason of an entry once.
    fn count_reasons(&mut self, alloc: Global, named: Named<'_>, reasons: &[NoKey]) -> Mem<()> {
        for (at, why) in reasons.iter().enumerate() {
            if !has_reason(&reasons[..at], why.reason) {
                let name = Vec::from_slice(alloc, why.reason.name().as_bytes())?;
                meet(alloc, &mut self.reasons, name, named.entry, named.file)?;
            }
        }
        Ok(())
    }

    /// Counts what is said of keeping the outcome of an entry.
    pub(crate) fn count(&mut self, alloc: Global, named: Named<'_>, kept: &Kept) -> Mem<()> {
        match kept {
            Kept::Nothing => {}
            Kept::Under(_) => self.kept = self.kept.saturating_add(1),
            Kept::Unknown(word) => {
                self.unjudged = self.unjudged.saturating_add(1);
                let word = Vec::from_slice(alloc, word)?;
                meet(alloc, &mut self.words, word, named.entry, named.file)?;
            }
            Kept::Not(reasons) => {
                self.barred = self.barred.saturating_add(1);
                self.count_reasons(alloc, named, reasons)?;
            }
        }
        Ok(())
    }

    /// Appends the reasons for which there is no key, by their names, each with its sentence.
    fn push_reasons(&self, alloc: Global, text: &mut String) -> Mem<()> {
        // (the list has its names backwards)
        for reason in REASONS.iter().rev() {
            if let Some(met) = self.reasons.get(reason.name().as_bytes()) {
                push_met(alloc, text, reason.name(), met)?;
                let sentence = sentence_of(*reason);
                write!(text, "          {sentence}\n")?;
            }
        }
        Ok(())
    }

    /// Appends the options of which nothing is known.
    fn push_words(&self, alloc: Global, text: &mut String) -> Mem<()> {
        for (word, met) in self.words.iter().take(MOST) {
            let word = shown_briefly(alloc, word)?;
            push_met(alloc, text, word.as_str(), met)?;
        }
        push_more(text, self.words.len())
    }

    /// Appends what was counted.
    pub(crate) fn push(&self, alloc: Global, text: &mut String) -> Mem<()> {
        let (kept, barred, unjudged) = (self.kept, self.barred, self.unjudged);
        write!(text, "may be kept under a key: {kept}\n")?;
        if barred > 0 {
            write!(text, "have no key: {barred}\n")?;
            self.push_reasons(alloc, text)?;
        }
        if unjudged > 0 {
            write!(
                text,
                "have an option of which nothing is known: {unjudged}\n"
            )?;
            self.push_words(alloc, text)?;
            write!(text, "          {UNKNOWN}\n")?;
        }
        Ok(())
    }
}

impl Tally {
    /// Of no entries.
    pub fn new(alloc: Global) -> Tally {
        Tally {
            counts: Counts::new(alloc),
            keeps: Keeps::new(alloc),
        }
    }
}
