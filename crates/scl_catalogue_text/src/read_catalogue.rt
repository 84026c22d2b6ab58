//! Reads the text of a catalogue (catalogue/README.md).
ghost use Rattle.std.specs.Prelude.{◌≡◌, ◌+◌, ◌<◌, ◌^◌, length, map, None, IfErr, IfOk, OnOk};
ghost use Rattle.std.specs.Char.{is_ascii_control};
ghost use Rattle.std.specs.List.{list_any};
ghost use Rattle.std.specs.Str.{bytes_eq};
ghost use Rattle.scl_catalogue.specs.Views.{case_of, catalogue_of, entry_of, group_of, tells_of};
ghost use Rattle.scl_catalogue_text.specs.Again.{GivesBack};
ghost use Rattle.scl_catalogue_text.specs.Lines.{added, catalogue_so_far, closed, lines_read, read, with_line, NewCase, NewEntry, NewGroup, Says};
ghost use Rattle.scl_catalogue_text.specs.Outcome.{IsBadLine, Reads, ReadsText};
ghost use Rattle.scl_catalogue_text.specs.Wrong.{IsWrong};
ghost use Rattle.scl_catalogue_text.specs.SaidViews.{said_of, so_far};

use crate::cut::parts;
use crate::file::has_its_options;
use crate::mistake::{BadLine, Mistake, Part, ReadError, Stop};
use crate::read_line::{Said, line};
use scl_catalogue::{Case, Catalogue, Entry, Group, Tells};
use scl_values::Mem;
use std::alloc::Global;

/// An entry whose cases are being read.
#[derive(Drop)]
struct Open {
    tells: Tells,
    name: Vec<u8>,
    says: Vec<u8>,
    cases: Vec<Case>,
}

/// What is read so far.
#[derive(Drop)]
struct Reader {
    alloc: Global,
    groups: Vec<Group>,
    entries: Vec<Entry>,
    open: Option<Open>,
}

fn has_name(entries: &[Entry], name: &[u8]) -> bool
    ensures { result ≡ list_any (λ entry. bytes_eq entry.name name.now) (map entry_of entries.now) }
{
    for entry in entries {
        if entry.name.as_slice() == name {
            return true;
        }
    }
    false
}

fn has_control(line: &[u8]) -> bool
    ensures { result ≡ list_any is_ascii_control line.now }
{
    let mut found = false;
    for byte in line {
        found |= byte.is_ascii_control();
    }
    found
}

impl Reader {
    /// Closes the entry whose cases are read, if there is one.
    fn close(&mut self) -> Mem<()>
        ensures { OnOk result (so_far self.new ≡ closed (so_far self.old)) }
    {
        if let Some(open) = self.open.take() {
            let entry = Entry::new(open.tells, open.name, open.says, open.cases);
            self.entries.push(entry)?;
        }
        Ok(())
    }

    fn begin(&mut self, tells: Tells, name: Vec<u8>) -> Part<()>
        ensures { Reads (λ _. so_far self.new) result (added (so_far self.old) (NewEntry (tells_of tells) name.items)) }
    {
        self.close()?;
        if has_name(&self.entries, &name) {
            return Err(Stop::Mistake(Mistake::NameTwice));
        }
        self.open = Some(Open {
            tells,
            name,
            says: Vec::new(self.alloc),
            cases: Vec::new(self.alloc),
        });
        Ok(())
    }

    fn say(&mut self, says: Vec<u8>) -> Part<()>
        ensures { Reads (λ _. so_far self.new) result (added (so_far self.old) (Says says.items)) }
    {
        let Some(mut open) = self.open.take() else {
            return Err(Stop::Mistake(Mistake::NoEntry));
        };
        if !open.says.is_empty() {
            return Err(Stop::Mistake(Mistake::SaysTwice));
        }
        open.says = says;
        self.open = Some(open);
        Ok(())
    }

    fn add_case(&mut self, case: Case) -> Part<()>
        ensures { Reads (λ _. so_far self.new) result (added (so_far self.old) (NewCase (case_of case))) }
    {
        let Some(mut open) = self.open.take() else {
            return Err(Stop::Mistake(Mistake::NoEntry));
        };
        if !has_its_options(&open.tells, &case) {
            return Err(Stop::Mistake(Mistake::NoOption));
        }
        open.cases.push(case)?;
        self.open = Some(open);
        Ok(())
    }

    fn add_group(&mut self, group: Group) -> Part<()>
        ensures { Reads (λ _. so_far self.new) result (added (so_far self.old) (NewGroup (group_of group))) }
    {
        self.groups.push(group)?;
        Ok(())
    }

    fn add(&mut self, bytes: &[u8]) -> Part<()>
        ensures { Reads (λ _. so_far self.new) result (with_line (so_far self.old) bytes.now) }
    {
        if has_control(bytes) {
            return Err(Stop::Mistake(Mistake::ControlByte));
        }
        match line(self.alloc, &self.groups, bytes)? {
            Said::Nothing => Ok(()),
            Said::Group(group) => self.add_group(group),
            Said::Entry(tells, name) => self.begin(tells, name),
            Said::Says(says) => self.say(says),
            Said::Case(case) => self.add_case(case),
        }
    }
}

fn bad_line(line: usize, stop: Stop) -> ReadError
    ensures { IsBadLine line stop result }
{
    match stop {
        Stop::Mistake(mistake) => ReadError::BadLine(BadLine { line, mistake }),
        Stop::Memory => ReadError::Memory,
    }
}

fn read_lines(reader: &mut Reader, lines: &[&[u8]]) -> Result<(), ReadError>
    ensures { ReadsText (λ _. catalogue_so_far (so_far reader.new)) result (lines_read 1 (so_far reader.old) (map (λ line. line.now) lines.now)) }
{
    for (index, line) in lines.iter().enumerate() {
        if let Err(stop) = reader.add(line) {
            return Err(bad_line(index + 1, stop));
        }
    }
    Ok(())
}

/// The catalogue, whose last entry does not go on.
fn finished(mut reader: Reader) -> Mem<Catalogue>
    ensures { IfOk result (λ catalogue. catalogue_of catalogue ≡ catalogue_so_far (so_far reader)) }
{
    reader.close()?;
    Ok(Catalogue {
        groups: reader.groups,
        entries: reader.entries,
    })
}

#[tactic(auto, unfolding(crate::specs::Lines::read))]
fn text_read(alloc: Global, text: &[u8]) -> Result<Catalogue, ReadError>
    ensures { ReadsText catalogue_of result (read text.now) }
{
    let lines = parts(alloc, text, b'\n')?;
    let mut reader = Reader {
        alloc,
        groups: Vec::new(alloc),
        entries: Vec::new(alloc),
        open: None,
    };
    read_lines(&mut reader, &lines)?;
    let catalogue = finished(reader)?;
    Ok(catalogue)
}

/// Reads a catalogue's text. The first line that is wrong is reported by its number; a catalogue that was written is
/// read as it was.
pub fn read(alloc: Global, text: &[u8]) -> Result<Catalogue, ReadError>
    ensures reads { ReadsText catalogue_of result (read text.now) }
    ensures gives_back { GivesBack catalogue_of result text.now }
    ensures wrong { IfErr result (IsWrong text.now) }
{
    text_read(alloc, text)
}
