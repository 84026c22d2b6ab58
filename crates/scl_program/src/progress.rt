//! How far a long work is, on a terminal.
use std::io::{self, IsTerminal, Write};
use std::time::{Duration, Instant};

/// How far a long work is: reported on standard error, only on a terminal, once it took more than a second.
#[derive(Drop)]
pub struct Progress<'a> {
    rt: &'a HostRuntime,
    last: Option<Instant>,
    told: bool,
}

impl<'a> Progress<'a> {
    /// Of work that begins.
    pub fn new(rt: &'a HostRuntime) -> Progress<'a> {
        let last = if rt.stderr().is_terminal() {
            Instant::now(rt).ok()
        } else {
            None
        };
        Progress {
            rt,
            last,
            told: false,
        }
    }

    fn tell(&mut self, done: u64) -> io::Result<()> {
        self.told = true;
        eprint!(self.rt; "\r{done} entries")
    }

    /// This number is done. Where that can't be reported, nothing is.
    pub fn step(&mut self, done: u64) {
        if let Some(last) = self.last {
            let is_due = match last.elapsed(self.rt) {
                Ok(elapsed) => elapsed >= Duration::from_secs(1),
                Err(_) => false,
            };
            if is_due {
                self.last = Instant::now(self.rt).ok();
                let _ = self.tell(done);
            }
        }
    }

    /// The work is done: the line is taken away.
    pub fn end(&self) {
        if self.told {
            let _ = eprint!(self.rt; "\r\x1b[K");
        }
    }
}
