//! A command line, given or inner: its words with response files expanded, and what they are cut into.
ghost use Rattle.std.specs.Prelude.{◌≡◌, IfOk, IsTrue};
ghost use Rattle.scl_files.specs.Expanded.{expanded_of};
ghost use Rattle.scl_values.specs.Tables.{owner_in, tables_hold_values};
ghost use Rattle.scl_values.specs.Words.{words_of};
ghost use Rattle.scl_text.specs.ReadLines.{line_read, nothing_read};

use crate::judge::Judge;
use crate::line::Line;
use scl_args::{ExactArg, Mem, ReadArg, SearchableArgInfo};
use scl_files::Expanded;
use std::alloc::Global;
use std::marker::Model;

/// A command line, given or inner, with response files expanded, cut and judged.
#[derive(Drop)]
pub struct ReadLine<T: ReadArg> {
    words: Vec<Vec<u8>>,
    line: Line<T>,
    texts: Vec<Vec<u8>>,
    lacked: Vec<Vec<u8>>,
}

impl<T: ReadArg> Model for ReadLine<T> {
    ghost use Rattle.scl_values.specs.Words.{words_of};
    ghost use Rattle.scl_text.specs.ReadLines.{LineRead};

    ghost Value = { LineRead T.Kind };

    ghost view = { λ l. record { words = words_of l.words.items; line = l.line; texts = words_of l.texts.items; lacked = words_of l.lacked.items } };
}

impl<T: ReadArg> ReadLine<T> {
    /// The line without words.
    pub fn none(alloc: Global) -> ReadLine<T>
        ensures { result ≡ nothing_read }
    {
        ReadLine {
            words: Vec::new(alloc),
            line: Line::none(alloc),
            texts: Vec::new(alloc),
            lacked: Vec::new(alloc),
        }
    }

    /// Its words, with response files expanded.
    pub fn words(&self) -> &[Vec<u8>]
        ensures { words_of result.now ≡ self.now.words }
    {
        &self.words
    }

    /// What they are cut into, judged.
    pub fn line(&self) -> &Line<T>
        ensures { result.now ≡ self.now.line }
    {
        &self.line
    }

    /// The texts of the response files that were expanded, in the order of their first opening, each once.
    pub fn texts(&self) -> &[Vec<u8>]
        ensures { words_of result.now ≡ self.now.texts }
    {
        &self.texts
    }

    /// The paths of the response files that the view does not have, in order and as often as they are asked for.
    pub fn lacked(&self) -> &[Vec<u8>]
        ensures { words_of result.now ≡ self.now.lacked }
    {
        &self.lacked
    }
}

impl<T: ExactArg + ReadArg> ReadLine<T> {
    /// The line of expanded words, cut by the tables and judged. It does not stop at a refusal.
    pub fn read<S: SearchableArgInfo<T>, J: Judge<T>>(
        alloc: Global,
        arg_info: &S,
        double_dashes: bool,
        judge: &J,
        expanded: Expanded,
    ) -> Mem<ReadLine<T>>
        requires { IsTrue (tables_hold_values T.holds_value (S.tables arg_info.now)) }
        ensures { IfOk result (λ line. line ≡ line_read (J.verdict judge.now) (owner_in (S.tables arg_info.now)) double_dashes (expanded_of expanded)) }
    {
        let Expanded {
            words,
            ats,
            texts,
            lacked,
        } = expanded;
        let line = Line::read(alloc, arg_info, double_dashes, judge, &words, &ats)?;
        Ok(ReadLine {
            words,
            line,
            texts,
            lacked,
        })
    }
}
