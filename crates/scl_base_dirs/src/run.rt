//! Preprocessed texts whose line markers tell names by their bases.
ghost use Rattle.std.specs.Prelude.{◌≡◌, ◌++◌, ◌||◌, ℕ, List, [], Some, IfOk, OnOk, map, cond, false};
ghost use Rattle.std.specs.List.{concat};
ghost use Rattle.scl_values.specs.Words.{words_of};
ghost use Rattle.scl_base_dirs.specs.Bases.{quoted};
ghost use Rattle.scl_base_dirs.specs.Cuts.{last_part};
ghost use Rattle.scl_base_dirs.specs.Markers.{begins_raw, mapped_line};
ghost use Rattle.scl_base_dirs.specs.Runs.{line_feed, mapped_text, to_come};

use crate::cut::cut_at;
use crate::marker::push_line;
use crate::spelling::{Quoting, quoted_dirs};
use scl_values::Mem;
use std::alloc::Global;
use std::marker::Model;

/// Maps a preprocessed text that comes in pieces.
///
/// The name in each line marker is told by its base; all else stands as it is. A line inside a raw string may look like a
/// marker, so no line is mapped after the first one that has `R"` and is no marker.
#[derive(Drop)]
pub struct RunMapper {
    alloc: Global,
    dirs: Vec<Vec<u8>>,
    begun: Vec<u8>,
    is_raw: bool,
}

impl Model for RunMapper {
    ghost use Rattle.std.specs.Prelude.{◌≡◌, true};
    ghost use Rattle.scl_values.specs.Words.{words_of};
    ghost use Rattle.scl_base_dirs.specs.Runs.{Mapping, is_one_line};

    ghost Value = { Mapping };

    ghost view = { λ m. record { dirs = words_of m.dirs.items; begun = m.begun.items; is_raw = m.is_raw } };

    ghost invariant = { λ m. is_one_line m.begun.items ≡ true };
}

/// Appends a line: mapped, unless a raw string may have begun before. Gives whether one may have begun when it ends.
fn push_next_line(
    alloc: Global,
    mapped: &mut Vec<u8>,
    dirs: &[Vec<u8>],
    is_raw: bool,
    line: &[u8],
) -> Mem<bool>
    ensures line { OnOk result (mapped.new.items ≡ mapped.old.items ++ cond is_raw line.now (mapped_line (words_of dirs.now) line.now)) }
    ensures raw { IfOk result (λ raw. raw ≡ (is_raw || begins_raw line.now)) }
{
    if is_raw {
        mapped.extend_from_slice(line)?;
        return Ok(true);
    }
    push_line(alloc, mapped, dirs, line)
}

impl RunMapper {
    /// A mapper for the base directories `dirs`, as `base_dirs` gives them, and the text of a compiler that quotes names so.
    pub fn new(alloc: Global, quoting: Quoting, dirs: &[Vec<u8>]) -> Mem<RunMapper>
        ensures { IfOk result (λ mapper. mapper ≡ record { dirs = map (quoted quoting) (words_of dirs.now); begun = []; is_raw = false }) }
    {
        Ok(RunMapper {
            alloc,
            dirs: quoted_dirs(alloc, quoting, dirs)?,
            begun: Vec::new(alloc),
            is_raw: false,
        })
    }

    /// Takes the next piece, and gives what of the mapped text is sure whatever follows: the lines that have ended.
    #[tactic(auto, using(crate::proofs::RunLemmas::push_rules))]
    pub fn push(self, piece: &[u8]) -> Mem<(RunMapper, Vec<u8>)>
        ensures mapped { IfOk result (λ pushed. (following : List ℕ) → pushed.1.items ++ to_come pushed.0 following ≡ to_come self (piece.now ++ following)) }
        ensures begun { IfOk result (λ pushed. Some pushed.0.begun ≡ last_part line_feed (self.begun ++ piece.now)) }
        ensures dirs { IfOk result (λ pushed. pushed.0.dirs ≡ self.dirs) }
    {
        let RunMapper {
            alloc,
            dirs,
            mut begun,
            mut is_raw,
        } = self;
        let mut mapped = Vec::new(alloc);
        let mut rest = piece;
        while let Some((line, behind)) = cut_at(b'\n', rest) {
            begun.extend_from_slice(line)?;
            is_raw = push_next_line(alloc, &mut mapped, &dirs, is_raw, &begun)?;
            mapped.push(b'\n')?;
            begun.clear();
            rest = behind;
        }
        begun.extend_from_slice(rest)?;
        Ok((
            RunMapper {
                alloc,
                dirs,
                begun,
                is_raw,
            },
            mapped,
        ))
    }

    /// The rest of the mapped text: the last line, if no line feed ended it.
    #[tactic(auto, using(crate::proofs::RunLemmas::come_last))]
    pub fn finish(self) -> Mem<Vec<u8>>
        ensures { IfOk result (λ mapped. mapped.items ≡ to_come self []) }
    {
        let mut mapped = Vec::new(self.alloc);
        push_next_line(
            self.alloc,
            &mut mapped,
            &self.dirs,
            self.is_raw,
            &self.begun,
        )?;
        Ok(mapped)
    }
}

/// A preprocessed text that comes in pieces, mapped (`RunMapper`).
pub fn map_pieces(
    alloc: Global,
    quoting: Quoting,
    dirs: &[Vec<u8>],
    pieces: &[Vec<u8>],
) -> Mem<Vec<u8>>
    ensures { IfOk result (λ mapped. mapped.items ≡ mapped_text (map (quoted quoting) (words_of dirs.now)) (concat (words_of pieces.now))) }
{
    let mut mapper = RunMapper::new(alloc, quoting, dirs)?;
    let mut mapped = Vec::new(alloc);
    for piece in pieces {
        let (next, text) = mapper.push(piece)?;
        mapper = next;
        mapped.extend_from_slice(&text)?;
    }
    mapped.extend_from_slice(&mapper.finish()?)?;
    Ok(mapped)
}

/// A preprocessed text, mapped (`RunMapper`).
pub fn map_run(alloc: Global, quoting: Quoting, dirs: &[Vec<u8>], text: &[u8]) -> Mem<Vec<u8>>
    ensures { IfOk result (λ mapped. mapped.items ≡ mapped_text (map (quoted quoting) (words_of dirs.now)) text.now) }
{
    let (mapper, mut mapped) = RunMapper::new(alloc, quoting, dirs)?.push(text)?;
    mapped.extend_from_slice(&mapper.finish()?)?;
    Ok(mapped)
}
