//! A terminal for tests.
use std::alloc::Global;
use std::cell::{Cell, RefCell};
use std::fmt::{Display, Write};
use std::io;
use std::string::String;
use std::time::{Clock, Duration};

/// Keeps what is written, and has a clock on which each look takes a second.
pub struct FakeTerminal {
    alloc: Global,
    seconds: Cell<u64>,
    written: RefCell<String>,
}

impl Drop for FakeTerminal {
    fn drop(self) {
        let FakeTerminal {
            alloc: _,
            seconds: _,
            written: _,
        } = self;
    }
}

impl FakeTerminal {
    pub fn new(alloc: Global) -> Self {
        FakeTerminal {
            alloc,
            seconds: Cell::new(0),
            written: RefCell::new(String::new(alloc)),
        }
    }

    /// Takes what was written so far.
    pub fn take_written(&self) -> String {
        self.written
            .try_replace(String::new(self.alloc))
            .unwrap_or(String::new(self.alloc))
    }
}

impl Clock for FakeTerminal {
    fn monotonic(&self) -> io::Result<Duration> {
        let seconds = self.seconds.get();
        self.seconds.set(seconds.saturating_add(1));
        Ok(Duration::from_secs(seconds))
    }

    fn since_1970(&self) -> io::Result<Duration> {
        self.monotonic()
    }
}

impl Eprint for FakeTerminal {
    fn eprint<D: Display + Drop>(&self, value: D) -> io::Result<()> {
        if let Ok(mut written) = self.written.try_borrow_mut() {
            let _ = write!(*written, "{value}");
        }
        Ok(())
    }

    fn eprintln<D: Display + Drop>(&self, value: D) -> io::Result<()> {
        self.eprint(value)
    }
}
