//! How a call ended.

/// What memory was wanted for, by the refusal that says so.
#[derive(Clone, Copy)]
pub enum Want {
    /// For a model: M21.
    Model,
    /// For a graph: G9.
    Graph,
    /// For vectors: V7.
    Vectors,
    /// For belief points: B9.
    Points,
    /// For lowered vectors: L4.
    Lower,
    /// For raised vectors: U4.
    Raise,
    /// For what has no refusal of its own.
    Plain,
}

/// How a call ended.
#[derive(Clone, Copy)]
pub enum Ended {
    /// With the answer that it has with ample memory.
    Done,
    /// With out of memory, and with nothing written.
    Memory(Want),
    /// With anything else.
    Wrong,
}

impl Ended {
    /// The call answered; this is whether the answer is the right one.
    pub fn done(is_right: bool) -> Ended {
        if is_right { Ended::Done } else { Ended::Wrong }
    }

    /// The call answered a fault; this is whether it is out of memory, and nothing was written.
    pub fn memory(want: Want, is_memory: bool) -> Ended {
        if is_memory {
            Ended::Memory(want)
        } else {
            Ended::Wrong
        }
    }

    /// The line that says so.
    pub fn line(self) -> &'static str {
        match self {
            Ended::Done => "done",
            Ended::Memory(Want::Model) => "memory model",
            Ended::Memory(Want::Graph) => "memory graph",
            Ended::Memory(Want::Vectors) => "memory vectors",
            Ended::Memory(Want::Points) => "memory points",
            Ended::Memory(Want::Lower) => "memory lower",
            Ended::Memory(Want::Raise) => "memory raise",
            Ended::Memory(Want::Plain) => "memory",
            Ended::Wrong => "wrong",
        }
    }
}
