//! The settings of a description beside its request: lines `setting`.
ghost use Rattle.std.specs.Prelude.{◌≡◌, IfOk, OnOk, string_bytes};
ghost use Rattle.std.specs.Option.{option_map};
ghost use Rattle.scl_describe.specs.Settings.{no_settings, with_setting, with_digit, with_trimmed_bases, number_of, is_absolute, base_in, setting_alone, setting_with, setting_of, field_text, wanted};
ghost use Rattle.scl_describe.specs.SettingsRead.{settings_by, set_by};

use crate::wants::Wants;
use scl_base_dirs::base_dirs;
use scl_cl::TakesLines;
use scl_description::{Part, cut_at, part_of, read_field};
use scl_reader::{Limits, RunOptions};
use scl_text::{Mem, from_local_codepage};
use std::alloc::Global;

/// The settings of a description beside its request (docs/RULES.md, Descriptions).
#[derive(Debug, Drop)]
pub struct Settings {
    /// What the runs of the preprocessor are for.
    pub runs: RunOptions,
    /// The text of the compiler's version, if it is known: numbers such as `14` or `14.0.6`, of which the first two count for
    /// hazards, or a text in which Apple's clang names itself.
    pub version: Option<String>,
    /// How much a command line may have, once its response files are put in place.
    pub limits: Limits,
    /// The parts that are wanted, or all.
    pub wants: Option<Wants>,
    /// The base directories by which keys are told, without the separators at their ends.
    pub bases: Vec<Vec<u8>>,
    /// Whether macros that the runs show stay where they are in the key.
    pub keeps_shown: bool,
}

/// What a line `setting` says.
#[derive(Debug, Drop)]
enum Setting {
    MayDist,
    RewriteIncludesOnly,
    CacheMode,
    Version(String),
    Words(usize),
    Bytes(usize),
    Wanted(Part),
    Base(Vec<u8>),
    KeepShown,
}

impl Settings {
    /// The settings where nothing sets them.
    pub fn new(alloc: Global) -> Settings
        ensures { settings_by result ≡ no_settings }
    {
        Settings {
            runs: RunOptions {
                may_dist: false,
                rewrite_includes_only: false,
                cache_mode: false,
            },
            version: None,
            limits: Limits::standard(),
            wants: None,
            bases: Vec::new(alloc),
            keeps_shown: false,
        }
    }

    /// The parts that are wanted.
    pub(crate) fn wanted(&self) -> Wants
        ensures { result ≡ wanted (settings_by self.now) }
    {
        self.wants.unwrap_or(Wants::everything())
    }

    /// Takes the separators from the ends of the base directories.
    pub(crate) fn trim_bases(&mut self, alloc: Global) -> Mem<()>
        ensures { OnOk result (settings_by self.new ≡ with_trimmed_bases (settings_by self.old)) }
    {
        self.bases = base_dirs(alloc, &self.bases)?;
        Ok(())
    }

    /// Takes what a line says.
    fn take(&mut self, setting: Setting) -> Mem<()>
        ensures { OnOk result (settings_by self.new ≡ with_setting (settings_by self.old) (set_by setting)) }
    {
        match setting {
            Setting::MayDist => self.runs.may_dist = true,
            Setting::RewriteIncludesOnly => self.runs.rewrite_includes_only = true,
            Setting::CacheMode => self.runs.cache_mode = true,
            Setting::Version(text) => self.version = Some(text),
            Setting::Words(words) => self.limits.words = words,
            Setting::Bytes(bytes) => self.limits.bytes = bytes,
            Setting::Base(dir) => self.bases.push(dir)?,
            Setting::KeepShown => self.keeps_shown = true,
            Setting::Wanted(part) => {
                self.wants = Some(self.wants.unwrap_or(Wants::nothing_more()).with(part));
            }
        }
        Ok(())
    }
}

/// A number and one more decimal digit.
fn with_digit(number: usize, digit: u8) -> Option<usize>
    ensures { result ≡ with_digit number digit }
{
    if !digit.is_ascii_digit() {
        return None;
    }
    number
        .checked_mul(10)?
        .checked_add(usize::from(digit - b'0'))
}

/// The number that decimal digits write. There is none if there is no digit, a byte is no digit, or the number is 2^64 or more.
#[tactic(auto, using(crate::proofs::SettingLaws::none_stays))]
pub fn number_of(digits: &[u8]) -> Option<usize>
    ensures { result ≡ number_of digits.now }
{
    if digits.is_empty() {
        return None;
    }
    let mut number = 0;
    let mut left = digits;
    while let Some((digit, rest)) = left.split_first() {
        number = with_digit(number, *digit)?;
        left = rest;
    }
    Some(number)
}

/// The setting of this name.
fn setting_alone(name: &[u8]) -> Option<Setting>
    ensures { option_map set_by result ≡ setting_alone name.now }
{
    if name == b"may-dist".as_slice() {
        Some(Setting::MayDist)
    } else if name == b"rewrite-includes-only".as_slice() {
        Some(Setting::RewriteIncludesOnly)
    } else if name == b"cache-mode".as_slice() {
        Some(Setting::CacheMode)
    } else if name == b"keep-shown".as_slice() {
        Some(Setting::KeepShown)
    } else {
        None
    }
}

/// The text in UTF-8 that a field stands for, if it stands for one.
fn field_text(alloc: Global, field: &[u8]) -> Mem<Option<String>>
    ensures { IfOk result (λ text. option_map string_bytes text ≡ field_text field.now) }
{
    let Some(bytes) = read_field(alloc, field)? else {
        return Ok(None);
    };
    from_local_codepage(alloc, &bytes)
}

/// Whether a directory is absolute, of Windows too: it begins with a separator, or with a drive and one.
fn is_absolute(dir: &[u8]) -> bool
    ensures { result ≡ is_absolute dir.now }
{
    let Some((first, rest)) = dir.split_first() else {
        return false;
    };
    *first == b'/' || *first == b'\\' || rest.starts_with(b":/") || rest.starts_with(b":\\")
}

/// The base directory that a field stands for, if it stands for one: it is absolute and has no NUL.
pub fn base_in(alloc: Global, field: &[u8]) -> Mem<Option<Vec<u8>>>
    ensures { IfOk result (λ dir. option_map (λ bytes. bytes.items) dir ≡ base_in field.now) }
{
    let Some(dir) = read_field(alloc, field)? else {
        return Ok(None);
    };
    if is_absolute(&dir) && !dir.contains(&0) {
        Ok(Some(dir))
    } else {
        Ok(None)
    }
}

/// The setting of this name and value.
fn setting_with(alloc: Global, name: &[u8], value: &[u8]) -> Mem<Option<Setting>>
    ensures { IfOk result (λ setting. option_map set_by setting ≡ setting_with name.now value.now) }
{
    if name == b"bound".as_slice() {
        Ok(number_of(value).map(Setting::Words))
    } else if name == b"bytes".as_slice() {
        Ok(number_of(value).map(Setting::Bytes))
    } else if name == b"version".as_slice() {
        Ok(field_text(alloc, value)?.map(Setting::Version))
    } else if name == b"wants".as_slice() {
        Ok(part_of(value).map(Setting::Wanted))
    } else if name == b"base".as_slice() {
        Ok(base_in(alloc, value)?.map(Setting::Base))
    } else {
        Ok(None)
    }
}

/// The setting that a line says, if it says one.
fn setting_of(alloc: Global, line: &[u8]) -> Mem<Option<Setting>>
    ensures { IfOk result (λ setting. option_map set_by setting ≡ setting_of line.now) }
{
    let Some((keyword, text)) = cut_at(b' ', line) else {
        return Ok(None);
    };
    if keyword != b"setting".as_slice() {
        return Ok(None);
    }
    match cut_at(b' ', text) {
        Some((name, value)) => setting_with(alloc, name, value),
        None => Ok(setting_alone(text)),
    }
}

impl TakesLines for Settings {
    ghost use Rattle.scl_describe.specs.Settings as specified;
    ghost use Rattle.scl_describe.specs.Settings.{blanked, settings_from};
    ghost use Rattle.scl_describe.specs.SettingsRead.{settings_by};

    ghost left = { blanked };

    ghost Made = { specified.Settings };

    ghost made = { λ settings lines. settings_from (settings_by settings) lines };

    fn take_line<'a>(&mut self, alloc: Global, line: &'a [u8]) -> Mem<&'a [u8]> {
        match setting_of(alloc, line)? {
            Some(setting) => {
                self.take(setting)?;
                Ok(&[])
            }
            None => Ok(line),
        }
    }
}
