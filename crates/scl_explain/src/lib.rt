//! What is said of a command line: its answer and hazards, the command to run in its place, how the program ends.
#![tactic(auto)]

mod answered;
mod case;
mod checked;
mod commanded;
mod count;
mod entry_kind;
mod hazards;
pub mod laws;
mod logged;
mod nuls;
mod refusal;
mod reply;
mod report;
mod same_key;
mod seen;
mod status;
mod words;

pub use answered::{Answered, answer_case};
pub use case::{Case, CaseError, Conditions};
pub use checked::{check, check_reply};
pub use commanded::{CommandForm, command};
pub use count::{Counts, Met, meet};
pub use entry_kind::EntryKind;
pub use hazards::push_hazard_names;
pub use nuls::unrunnable_text;
pub use refusal::{cached_text, refusal_text};
pub use reply::{Form, Paint, Reply, explain, load_error_text, unread};
pub use report::{Means, Report};
pub use same_key::{has_key, has_key_of, hashed, is_shown};
pub use status::Ending;
pub use words::{WordForm, command_text};
