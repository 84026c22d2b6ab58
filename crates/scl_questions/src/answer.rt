//! What a caller answers.
ghost use Rattle.std.specs.Prelude.{◌≡◌};
ghost use Rattle.scl_questions.specs.Answers.{fits};
ghost use Rattle.scl_questions.specs.Views.{question_of, reply_of};

use crate::question::Question;

/// What stands at a path.
#[derive(Debug, Drop)]
pub enum Standing {
    /// A file, with a sum of its bytes.
    Regular(Vec<u8>),
    /// A folder.
    Folder,
    /// A device, a pipe, or what leads below /dev or /proc.
    Special,
    /// Nothing.
    Missing,
}

/// A program.
#[derive(Debug, Drop)]
pub struct Program {
    /// A sum of its bytes and of its libraries'.
    pub sum: Vec<u8>,
    /// The name by which it is called, and each name on the way of its links.
    pub links: Vec<Vec<u8>>,
}

/// What a run did.
#[derive(Debug, Drop)]
pub struct Written {
    /// Its status.
    pub status: u32,
    /// Its standard output.
    pub output: Vec<u8>,
    /// Its standard error.
    pub messages: Vec<u8>,
    /// The bytes of its own file.
    pub own: Vec<u8>,
}

/// An answer to a question.
#[derive(Debug, Drop)]
pub enum Answer {
    /// The value of a variable, if it is set.
    Value(Option<Vec<u8>>),
    /// A program, if there is one.
    Program(Option<Program>),
    /// What stands at a path.
    Standing(Standing),
    /// The bytes of a file, if there is one.
    Bytes(Option<Vec<u8>>),
    /// The names in a folder.
    Names(Vec<Vec<u8>>),
    /// A path without links.
    Real(Vec<u8>),
    /// Size and time of a file.
    Times(Vec<u8>),
    /// What a run did.
    Written(Written),
}

impl Answer {
    /// Whether it is of the kind that the question asks for.
    pub fn fits(&self, question: &Question) -> bool
        ensures { result ≡ fits (question_of question.now) (reply_of self.now) }
    {
        match question {
            Question::Env(_) => matches!(self, Answer::Value(_)),
            Question::Program(_) => matches!(self, Answer::Program(_)),
            Question::File(_) => matches!(self, Answer::Standing(_)),
            Question::Bytes(_) => matches!(self, Answer::Bytes(_)),
            Question::Names(_) => matches!(self, Answer::Names(_)),
            Question::Real(_) => matches!(self, Answer::Real(_)),
            Question::Times(_) => matches!(self, Answer::Times(_)),
            Question::Run(_, _) => matches!(self, Answer::Written(_)),
        }
    }
}
