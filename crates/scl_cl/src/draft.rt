//! A request while its lines are read.
ghost use Rattle.std.specs.Prelude.{◌≡◌, OnOk, false, Some};
ghost use Rattle.std.specs.Option.{option_map};
ghost use Rattle.scl_cl.specs.Requests.{breaks, gathered, naming, request_of};
ghost use Rattle.scl_cl.specs.Drafts.{with_line, gathered_by, asked_by};
ghost use Rattle.scl_cl.specs.LinesRead.{said_by};

use crate::request::Request;
use crate::saying::Saying;
use scl_reader::Compiler;
use scl_text::{Mem, View};
use std::alloc::Global;

/// The part of a request that its lines so far make.
#[derive(Drop)]
pub(crate) struct Draft {
    pub compiler: Option<Compiler>,
    pub directory: Option<Vec<u8>>,
    pub words: Vec<Vec<u8>>,
    pub environment: Vec<(Vec<u8>, Vec<u8>)>,
    pub view: View,
}

impl Draft {
    /// The draft of no line, or of one that names this compiler.
    pub(crate) fn new(alloc: Global, compiler: Option<Compiler>) -> Draft
        ensures { gathered_by result ≡ gathered (naming compiler) }
    {
        Draft {
            compiler,
            directory: None,
            words: Vec::new(alloc),
            environment: Vec::new(alloc),
            view: View::new(alloc),
        }
    }

    /// Whether the line repeats something that may be said only once.
    pub(crate) fn refuses(&self, saying: &Saying) -> bool
        ensures { result ≡ breaks (gathered_by self.now) (Some (said_by saying.now)) }
    {
        match saying {
            Saying::Compiler(_) => self.compiler.is_some(),
            Saying::Directory(_) => self.directory.is_some(),
            Saying::Blank
            | Saying::Word(_)
            | Saying::File(_, _)
            | Saying::ViewedDirectory(_)
            | Saying::Existing(_)
            | Saying::Variable(_, _)
            | Saying::Multiarch => false,
        }
    }

    /// Adds what the line says.
    pub(crate) fn take(&mut self, saying: Saying) -> Mem<()>
        requires { breaks (gathered_by self.old) (Some (said_by saying)) ≡ false }
        ensures { OnOk result (gathered_by self.new ≡ with_line (gathered_by self.old) (said_by saying)) }
    {
        match saying {
            Saying::Blank => {}
            Saying::Compiler(compiler) => self.compiler = Some(compiler),
            Saying::Directory(path) => self.directory = Some(path),
            Saying::Word(word) => self.words.push(word)?,
            Saying::File(path, bytes) => self.view.add_file(path, bytes)?,
            Saying::ViewedDirectory(path) => self.view.add_dir(path)?,
            Saying::Existing(path) => self.view.add_existing(path)?,
            Saying::Variable(key, value) => self.environment.push((key, value))?,
            Saying::Multiarch => self.view.set_multiarch(true),
        }
        Ok(())
    }

    /// The request, if a line named a compiler.
    pub(crate) fn finish(self, alloc: Global) -> Option<Request>
        ensures { option_map asked_by result ≡ request_of (gathered_by self) }
    {
        Some(Request {
            compiler: self.compiler?,
            directory: self.directory.unwrap_or(Vec::new(alloc)),
            words: self.words,
            environment: self.environment,
            view: self.view,
        })
    }
}
