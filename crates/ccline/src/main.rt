//! Answers the request on standard input on standard output (docs/RULES.md, The program).
#![tactic(auto)]

use scl_cl::{Counted, Outcome, run};
use std::process::ExitCode;

fn main(rt: HostRuntime) -> ExitCode {
    let mut reader = Counted::new(rt.stdin());
    let mut writer = Counted::new(rt.stdout());
    let outcome = run(rt.alloc(), &mut reader, &mut writer);
    if outcome != Outcome::Answered {
        // Where standard error takes nothing, only the status says so.
        let _ = eprintln!(rt; "{outcome}");
    }
    ExitCode::from(outcome.status())
}
