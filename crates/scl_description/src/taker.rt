//! What takes rows: a text, or whatever else holds them. Each row is told once, to any of these.
ghost use Rattle.std.specs.Prelude.{◌≡◌, ◌++◌, ◌∷◌, map, OnOk};
ghost use Rattle.std.specs.Option.{option_copied};
ghost use Rattle.scl_files.specs.Characters.{space};
ghost use Rattle.scl_values.specs.Escaped.{escaped};
ghost use Rattle.scl_values.specs.Words.{words_of};
ghost use Rattle.scl_description.specs.Rows.{entry_rows, fields_behind, lone, maybe_entry, row_entry, words_entry, yes_entry};
ghost use Rattle.scl_description.specs.Takers.{Adds};

use crate::field::push_field;
use scl_text::Mem;

/// What takes rows, one after the other.
pub trait TakesRows {
    ghost use Rattle.std.specs.Prelude.{◌++◌, ◌∷◌, [], ℕ, List, map, OnOk};
    ghost use Rattle.scl_values.specs.Words.{words_of};
    ghost use Rattle.scl_description.specs.Takers.{Adds};

    /// Since the first state, it has taken these rows.
    ghost has: { Self → Self → List (List (List ℕ)) → Type 0 };

    /// Takes a row with this name, these fields and then these words.
    fn take(&mut self, name: &str, fields: &[&[u8]], words: &[Vec<u8>]) -> Mem<()>
        ensures { OnOk result (Adds has self.old self.new ((name.now ∷ map (λ field. field.now) fields.now ++ words_of words.now) ∷ [])) };
}

/// Appends a field after a space.
fn push_behind(text: &mut Vec<u8>, field: &[u8]) -> Mem<()>
    ensures { OnOk result (text.new.items ≡ text.old.items ++ space ∷ escaped field.now) }
{
    text.push(b' ')?;
    push_field(text, field)
}

/// Appends fields, each after a space.
fn push_all_behind(text: &mut Vec<u8>, fields: &[&[u8]]) -> Mem<()>
    ensures { OnOk result (text.new.items ≡ text.old.items ++ fields_behind (map (λ field. field.now) fields.now)) }
{
    for field in fields {
        push_behind(text, field)?;
    }
    Ok(())
}

/// Appends words, each after a space.
fn push_words_behind(text: &mut Vec<u8>, words: &[Vec<u8>]) -> Mem<()>
    ensures { OnOk result (text.new.items ≡ text.old.items ++ fields_behind (words_of words.now)) }
{
    for word in words {
        push_behind(text, word)?;
    }
    Ok(())
}

impl TakesRows for Vec<u8> {
    ghost use Rattle.std.specs.Prelude.{◌≡◌, ◌++◌};
    ghost use Rattle.scl_description.specs.Rows.{rows_text};

    ghost has = { λ start text rows. text.items ≡ start.items ++ rows_text rows };

    #[tactic(auto, using(crate::proofs::TakerLaws::row_added))]
    fn take(&mut self, name: &str, fields: &[&[u8]], words: &[Vec<u8>]) -> Mem<()> {
        push_field(self, name.as_bytes())?;
        push_all_behind(self, fields)?;
        push_words_behind(self, words)?;
        self.push(b'\n')?;
        Ok(())
    }
}

/// Tells a row with this name and these fields (docs/RULES.md, Descriptions).
pub fn tell_row<R: TakesRows>(rows: &mut R, name: &str, fields: &[&[u8]]) -> Mem<()>
    ensures { OnOk result (Adds R.has rows.old rows.new (entry_rows (row_entry name.now (map (λ field. field.now) fields.now)))) }
{
    rows.take(name, fields, &[])
}

/// Tells a row with this name and these words.
pub fn tell_row_of<R: TakesRows>(rows: &mut R, name: &str, words: &[Vec<u8>]) -> Mem<()>
    ensures { OnOk result (Adds R.has rows.old rows.new (entry_rows (row_entry name.now (words_of words.now)))) }
{
    rows.take(name, &[], words)
}

/// Tells a row with this name and this word.
pub fn tell_word<R: TakesRows>(rows: &mut R, name: &str, word: &[u8]) -> Mem<()>
    ensures { OnOk result (Adds R.has rows.old rows.new (entry_rows (row_entry name.now (lone word.now)))) }
{
    rows.take(name, &[word], &[])
}

/// Tells for each word a row with this name.
pub fn tell_words<R: TakesRows>(rows: &mut R, name: &str, words: &[Vec<u8>]) -> Mem<()>
    ensures { OnOk result (Adds R.has rows.old rows.new (entry_rows (words_entry name.now (words_of words.now)))) }
{
    for word in words {
        tell_word(rows, name, word)?;
    }
    Ok(())
}

/// Tells the row of a word, if there is one.
pub fn tell_maybe<R: TakesRows>(rows: &mut R, name: &str, word: Option<&[u8]>) -> Mem<()>
    ensures { OnOk result (Adds R.has rows.old rows.new (entry_rows (maybe_entry name.now (option_copied word.entry)))) }
{
    match word {
        Some(word) => tell_word(rows, name, word),
        None => Ok(()),
    }
}

/// Tells a row with only the name, if it holds.
pub fn tell_yes<R: TakesRows>(rows: &mut R, name: &str, holds: bool) -> Mem<()>
    ensures { OnOk result (Adds R.has rows.old rows.new (entry_rows (yes_entry name.now holds))) }
{
    if holds {
        rows.take(name, &[], &[])
    } else {
        Ok(())
    }
}
