//! The settings of descriptions, for each command line of several.
use scl_cl::Mem;
use scl_describe::Settings;
use scl_text::command::{copy_text, copy_words};
use std::alloc::Global;

/// The same settings.
pub(crate) fn copied(alloc: Global, settings: &Settings) -> Mem<Settings> {
    Ok(Settings {
        runs: settings.runs,
        version: copy_text(alloc, &settings.version)?,
        limits: settings.limits,
        wants: settings.wants,
        bases: copy_words(alloc, &settings.bases)?,
        keeps_shown: settings.keeps_shown,
    })
}
