//! Rows in a list, as values.
ghost use Rattle.std.specs.Prelude.{◌≡◌, ◌++◌, ◌∷◌, [], map, IfOk};
ghost use Rattle.scl_values.specs.Words.{words_of};
ghost use Rattle.scl_text.specs.Runs.{runs_of};
ghost use Rattle.scl_description.specs.RowLists.{held};

use crate::taker::TakesRows;
use scl_text::Mem;
use scl_text::command::{push_word, push_words};
use std::alloc::Global;

/// Rows in the order in which they are told, each as its fields; the first field is its name.
#[derive(Drop)]
pub struct RowList {
    alloc: Global,
    rows: Vec<Vec<Vec<u8>>>,
}

impl RowList {
    /// A list without rows.
    pub fn new(alloc: Global) -> RowList
        ensures { held result ≡ [] }
    {
        RowList {
            alloc,
            rows: Vec::new(alloc),
        }
    }

    /// The rows.
    pub fn rows(&self) -> &[Vec<Vec<u8>>]
        ensures { runs_of result.now ≡ held self.now }
    {
        &self.rows
    }

    /// The rows, without the list.
    pub fn into_rows(self) -> Vec<Vec<Vec<u8>>>
        ensures { runs_of result.items ≡ held self }
    {
        self.rows
    }
}

/// The row with this name, these fields and then these words.
fn row_with(alloc: Global, name: &str, fields: &[&[u8]], words: &[Vec<u8>]) -> Mem<Vec<Vec<u8>>>
    ensures { IfOk result (λ row. words_of row.items ≡ name.now ∷ map (λ field. field.now) fields.now ++ words_of words.now) }
{
    let mut row = Vec::new(alloc);
    push_word(alloc, &mut row, name.as_bytes())?;
    for field in fields {
        push_word(alloc, &mut row, field)?;
    }
    push_words(alloc, &mut row, words)?;
    Ok(row)
}

impl TakesRows for RowList {
    ghost use Rattle.std.specs.Prelude.{◌≡◌, ◌++◌};
    ghost use Rattle.scl_description.specs.RowLists.{held};

    ghost has = { λ start list rows. held list ≡ held start ++ rows };

    fn take(&mut self, name: &str, fields: &[&[u8]], words: &[Vec<u8>]) -> Mem<()> {
        let row = row_with(self.alloc, name, fields, words)?;
        self.rows.push(row)?;
        Ok(())
    }
}
