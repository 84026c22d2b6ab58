//! The rows of a key as it is delivered.
ghost use Rattle.std.specs.Prelude.{◌∷◌, [], codes, Some, OnOk};
ghost use Rattle.scl_values.specs.Words.{words_of};
ghost use Rattle.scl_description.specs.Rows.{entry_rows, row_entry};
ghost use Rattle.scl_description.specs.Rows.{rows_of as rows_told};
ghost use Rattle.scl_description.specs.Takers.{Adds};
ghost use Rattle.scl_key.specs.Views.{parts_of};
ghost use Rattle.scl_shared_key.specs.Views.{verdict_of};
ghost use Rattle.scl_delivered.specs.Rows.{entries_if_told, in_object_entry, last_rows_of, nevertheless, rows_of, shown_entries, told_entries, verdict_entries};
ghost use Rattle.scl_delivered.specs.Views.{delivered_of};

use crate::delivered::{Delivered, names_none};
use scl_description::{TakesRows, tell_row, tell_word};
use scl_key::{Part, tell_directs, tell_key};
use scl_shared_key::{InObject, Verdict};
use scl_text::Mem;

/// Tells the row `key NAME VALUE`.
fn tell_named<R: TakesRows>(rows: &mut R, name: &str, value: &[u8]) -> Mem<()>
    ensures { OnOk result (Adds R.has rows.old rows.new (entry_rows (row_entry (codes "key") (name.now ∷ value.now ∷ [])))) }
{
    tell_row(rows, "key", &[name.as_bytes(), value])
}

/// Tells the rows that say where the bases belong in the key nevertheless.
fn tell_nevertheless<R: TakesRows>(rows: &mut R, said: &Verdict) -> Mem<()>
    ensures { OnOk result (Adds R.has rows.old rows.new (rows_told (nevertheless (verdict_of said.now)))) }
{
    tell_word(rows, "key", b"bases-if-beside")?;
    tell_named(rows, "bases-if-shown", said.shown.as_bytes())?;
    tell_named(rows, "bases-if-planned", said.planned.as_bytes())
}

/// Tells the rows of a key that is told by bases.
#[tactic(auto, unfolding(crate::specs::Rows::told_entries))]
fn tell_told<R: TakesRows>(rows: &mut R, said: &Verdict, parts: &[Part]) -> Mem<()>
    ensures { OnOk result (Adds R.has rows.old rows.new (rows_told (told_entries (verdict_of said.now) (parts_of parts.now)))) }
{
    tell_word(rows, "key", b"bases")?;
    tell_key(rows, parts)?;
    tell_nevertheless(rows, said)
}

/// Tells the rows of a key, if it is told by bases.
fn tell_if_told<R: TakesRows>(rows: &mut R, said: &Verdict, parts: &[Part]) -> Mem<()>
    ensures { OnOk result (Adds R.has rows.old rows.new (rows_told (entries_if_told (verdict_of said.now) (parts_of parts.now)))) }
{
    if names_none(said.in_object) {
        tell_told(rows, said, parts)?;
    }
    Ok(())
}

/// Tells the row `directory-in-object`.
fn tell_in_object<R: TakesRows>(rows: &mut R, in_object: InObject) -> Mem<()>
    ensures { OnOk result (Adds R.has rows.old rows.new (entry_rows (in_object_entry in_object))) }
{
    tell_word(rows, "directory-in-object", in_object.name().as_bytes())
}

/// Tells the row of what is said of an object, and after it those of such a key.
fn tell_said<R: TakesRows>(rows: &mut R, said: &Verdict, parts: &[Part]) -> Mem<()>
    ensures { OnOk result (Adds R.has rows.old rows.new (rows_told (verdict_entries (Some (verdict_of said.now)) (parts_of parts.now)))) }
{
    tell_in_object(rows, said.in_object)?;
    tell_if_told(rows, said, parts)
}

/// Tells the rows of macros that the runs show.
fn tell_shown<R: TakesRows>(rows: &mut R, words: &[Vec<u8>]) -> Mem<()>
    ensures { OnOk result (Adds R.has rows.old rows.new (rows_told (shown_entries (words_of words.now)))) }
{
    for word in words {
        tell_named(rows, "shown", word)?;
    }
    Ok(())
}

impl Delivered {
    /// Tells the rows before those of options: those of a key that is not told by base directories.
    pub fn tell_rows<R: TakesRows>(&self, rows: &mut R) -> Mem<()>
        ensures { OnOk result (Adds R.has rows.old rows.new (rows_told (rows_of (delivered_of self.now)))) }
    {
        if self.is_told_by_bases() {
            return Ok(());
        }
        tell_key(rows, &self.parts)?;
        tell_directs(rows, &self.direct)
    }

    /// Tells the rows at the end: what is said of the object, a key that is told by base directories, and macros that the
    /// runs show.
    pub fn tell_last_rows<R: TakesRows>(&self, rows: &mut R) -> Mem<()>
        ensures { OnOk result (Adds R.has rows.old rows.new (rows_told (last_rows_of (delivered_of self.now)))) }
    {
        if let Some(said) = &self.verdict {
            tell_said(rows, said, &self.parts)?;
        }
        tell_shown(rows, &self.shown)
    }
}
