//! Why a text, or a run, is refused.
use polcert_check::{LowerFault, RaiseFault};
use polcert_model::ModelFault;
use polcert_policy::{GraphFault, PointFault, VectorFault};
use thiserror::Error;

/// Why one of the texts of a run is refused: a model's, and those that it is read with.
#[derive(Clone, Copy, Debug, PartialEq, Eq, Error)]
pub enum Fault {
    /// It is no model's text.
    #[error("model: {0}")]
    Model(ModelFault),
    /// It is no policy graph for the model's actions and observations.
    #[error("graph: {0}")]
    Graph(GraphFault),
    /// It is no list of vectors, one for each node of the graph or for each action, with a value for each of the model's states.
    #[error("vectors: {0}")]
    Vectors(VectorFault),
    /// It is no list of belief points for the model's states, actions and observations.
    #[error("points: {0}")]
    Points(PointFault),
}

/// Why a run stops before its end.
#[derive(Clone, Copy, Debug, PartialEq, Eq, Error)]
pub enum RunFault {
    /// A text is refused, or there is no memory for it.
    #[error("{0}")]
    Text(Fault),
    /// A read of the model's source failed.
    #[error("cannot read model")]
    ReadModel,
    /// A read of the graph's source failed.
    #[error("cannot read graph")]
    ReadGraph,
    /// A read of the vectors' source failed.
    #[error("cannot read vectors")]
    ReadVectors,
    /// A read of the points' source failed.
    #[error("cannot read points")]
    ReadPoints,
    /// A write of the answer failed.
    #[error("cannot write")]
    Write,
    /// The vectors can't be lowered to pass, or there is no memory for the lowered ones.
    #[error("lower: {0}")]
    Lower(LowerFault),
    /// The vectors can't be raised to pass from above, or there is no memory for the raised ones.
    #[error("raise: {0}")]
    Raise(RaiseFault),
    /// The model has a table of more than 16,777,216 cells, and is not printed.
    #[error("print: C1")]
    TooLargeToPrint,
}
