//! What the program shows of its progress on standard error: how much of a text was read, and how far a check, a lowering or a raising is.
ghost use Rattle.std.specs.Prelude.{◌≡◌};
ghost use Rattle.polcert_terminal.specs.Statuses.{read_fault_of};

use polcert_answer::RunFault;
use polcert_check::Progress;
use polcert_text::{Source, SourceFailed};
use std::fmt::{self, Display};
use std::time::{Clock, Instant};

/// How many seconds pass before the line is first written.
const QUIET_SECONDS: u64 = 5;

/// A line on standard error that is written over in place: not in the first seconds, then at most once a second.
struct StatusLine<'a, R> {
    rt: &'a R,
    /// When it was made; `None` if nothing is ever written.
    began: Option<Instant>,
    /// The second in which it was last written, 0 if it was not.
    written_at: u64,
}

impl<R> Drop for StatusLine<'_, R> {
    fn drop(self) {
        let StatusLine {
            rt: _,
            began: _,
            written_at: _,
        } = self;
    }
}

impl<'a, R: Clock + Eprint> StatusLine<'a, R> {
    /// Returns a line that is still blank, and stays blank if standard error is no terminal.
    fn new(rt: &'a R, is_terminal: bool) -> Self {
        let began = if is_terminal {
            Instant::now(rt).ok()
        } else {
            None
        };
        StatusLine {
            rt,
            began,
            written_at: 0,
        }
    }

    /// Writes the text over what the line said before, if it is time to.
    fn update<T: Display + Drop>(&mut self, text: T) {
        if let Some(seconds) = self.seconds() {
            if seconds >= QUIET_SECONDS && seconds > self.written_at {
                self.written_at = seconds;
                let _ = self.rt.eprint(Written(text));
            }
        }
    }

    /// Blanks the line if it was written.
    fn clear(&mut self) {
        if self.written_at > 0 {
            self.written_at = 0;
            let _ = self.rt.eprint(Blank);
        }
    }

    /// Returns the whole seconds since it was made, or `None` if nothing is ever written.
    fn seconds(&self) -> Option<u64> {
        let elapsed = self.began?.elapsed(self.rt).ok()?;
        Some(elapsed.as_secs())
    }
}

/// A text in place of what the line said before.
#[derive(Clone, Copy, Drop)]
struct Written<T>(T);

/// Nothing in place of what the line said before.
#[derive(Clone, Copy)]
struct Blank;

impl<T: Display> Display for Written<T> {
    fn fmt<W: fmt::Write>(&self, f: &mut fmt::Formatter<W>) -> fmt::Result {
        write!(f, "{}{}", Blank, self.0)
    }
}

impl Display for Blank {
    fn fmt<W: fmt::Write>(&self, f: &mut fmt::Formatter<W>) -> fmt::Result {
        write!(f, "\r{:44}\r", "")
    }
}

/// Shows on standard error, if that is a terminal, how many nodes, actions or points are done, and how many states of one that takes
/// long: not in the first seconds, then at most once a second, in one line that is blank again where the walk over them ends.
#[derive(Drop)]
pub struct CheckProgress<'a, R> {
    line: StatusLine<'a, R>,
    /// The noun of what is counted.
    noun: &'static str,
    done: usize,
    nodes: usize,
}

impl<'a, R: Clock + Eprint> CheckProgress<'a, R> {
    /// Returns the progress of a walk over nodes that begins now.
    pub fn new(rt: &'a R, is_terminal: bool) -> Self {
        Self::of("nodes", rt, is_terminal)
    }

    /// Returns the progress of a walk over actions that begins now.
    pub fn of_actions(rt: &'a R, is_terminal: bool) -> Self {
        Self::of("actions", rt, is_terminal)
    }

    /// Returns the progress of a walk over belief points that begins now.
    pub fn of_points(rt: &'a R, is_terminal: bool) -> Self {
        Self::of("points", rt, is_terminal)
    }

    /// Returns the progress of a walk that begins now, over what the noun names.
    fn of(noun: &'static str, rt: &'a R, is_terminal: bool) -> Self {
        CheckProgress {
            line: StatusLine::new(rt, is_terminal),
            noun,
            done: 0,
            nodes: 0,
        }
    }

    /// Shows how many nodes are done, and how many start states of the next.
    fn show(&mut self, states: Option<Share>) {
        let nodes = Share {
            done: self.done,
            all: self.nodes,
        };
        self.line.update(NodesDone {
            noun: self.noun,
            nodes,
            states,
        });
    }
}

impl<R: Clock + Eprint> Progress for CheckProgress<'_, R> {
    fn begin(&mut self, nodes: usize) {
        self.done = 0;
        self.nodes = nodes;
    }

    fn states_done(&mut self, done: usize, states: usize) {
        self.show(Some(Share { done, all: states }));
    }

    fn node_done(&mut self) {
        self.done = self.done.saturating_add(1);
        self.show(None);
    }

    fn end(&mut self) {
        self.line.clear();
    }
}

/// How many of all are done.
#[derive(Clone, Copy)]
struct Share {
    done: usize,
    all: usize,
}

/// The nodes that are done, with their noun, and the start states of the next node.
#[derive(Clone, Copy)]
struct NodesDone {
    noun: &'static str,
    nodes: Share,
    states: Option<Share>,
}

impl fmt::Display for NodesDone {
    fn fmt<W: fmt::Write>(&self, f: &mut fmt::Formatter<W>) -> fmt::Result {
        write!(f, "{} of {} {}", self.nodes.done, self.nodes.all, self.noun)?;
        match self.states {
            Some(states) => write!(f, ", {} of {} states", states.done, states.all),
            None => Ok(()),
        }
    }
}

/// A text that the program reads.
#[derive(Clone, Copy)]
pub enum InputText {
    Model,
    Graph,
    Vectors,
    Points,
}

impl InputText {
    /// Returns the fault of a text whose file cannot be opened.
    pub fn read_fault(self) -> RunFault
        ensures { result ≡ read_fault_of self }
    {
        match self {
            InputText::Model => RunFault::ReadModel,
            InputText::Graph => RunFault::ReadGraph,
            InputText::Vectors => RunFault::ReadVectors,
            InputText::Points => RunFault::ReadPoints,
        }
    }
}

impl fmt::Display for InputText {
    fn fmt<W: fmt::Write>(&self, f: &mut fmt::Formatter<W>) -> fmt::Result {
        match self {
            InputText::Model => f.write_str("model"),
            InputText::Graph => f.write_str("graph"),
            InputText::Vectors => f.write_str("vectors"),
            InputText::Points => f.write_str("points"),
        }
    }
}

/// A source that shows on standard error, if that is a terminal, how many bytes it gave: not in the first seconds, then at most once a
/// second, in one line that is blank again at the end. Its reads are those of the source within.
pub struct WatchedSource<'a, S, R> {
    pub source: S,
    line: StatusLine<'a, R>,
    text: InputText,
    bytes: u64,
}

impl<S: Drop, R> Drop for WatchedSource<'_, S, R> {
    fn drop(self) {
        let WatchedSource {
            source: _,
            line: _,
            text: _,
            bytes: _,
        } = self;
    }
}

impl<'a, S, R: Clock + Eprint> WatchedSource<'a, S, R> {
    /// Returns a source of a text whose reading begins now.
    pub fn new(source: S, text: InputText, rt: &'a R, is_terminal: bool) -> Self
        ensures { result.source ≡ source }
    {
        WatchedSource {
            source,
            line: StatusLine::new(rt, is_terminal),
            text,
            bytes: 0,
        }
    }

    /// Counts bytes that were read.
    fn add(&mut self, count: usize)
        ensures { self.new.source ≡ self.old.source }
    {
        self.bytes = self.bytes.saturating_add(count as u64);
        self.line.update(BytesRead {
            text: self.text,
            bytes: self.bytes,
        });
    }

    /// Blanks the line of the progress. A text that is refused before its end leaves it written.
    pub fn clear_progress(&mut self)
        ensures { self.new.source ≡ self.old.source }
    {
        self.line.clear();
    }
}

impl<S: Source, R: Clock + Eprint> Source for WatchedSource<'_, S, R> {
    ghost failures = { λ s. S.failures s.source };

    ghost reads = { λ s room answer t. S.reads s.source room answer t.source };

    fn read(&mut self, piece: &mut [u8]) -> Result<usize, SourceFailed> {
        let answer = self.source.read(piece);
        match answer {
            Ok(count) if count > 0 => self.add(count),
            _ => self.clear_progress(),
        }
        answer
    }
}

/// How many bytes of a text were read.
#[derive(Clone, Copy)]
struct BytesRead {
    text: InputText,
    bytes: u64,
}

impl fmt::Display for BytesRead {
    fn fmt<W: fmt::Write>(&self, f: &mut fmt::Formatter<W>) -> fmt::Result {
        write!(f, "{}: {} bytes read", self.text, self.bytes)
    }
}
