//! The line on standard error when a run stops.
use polcert_answer::{Fault, RunFault};
use polcert_check::{LowerFault, RaiseFault};
use polcert_model::{ItemFault, ModelFault};
use polcert_policy::{GraphFault, PointFault, VectorFault};
use polcert_text::{NumberFault, SliceSink, TokenFault, write_scaled};
use std::{fmt, str};

/// Why a run stopped, as the program prints it, without a line end: `model: M4 in item 8 at byte 106`. Items of a text are
/// counted from 1; bytes, actions, rows, nodes, states and observations from 0.
#[derive(Clone, Copy, Debug)]
pub struct RefusalLine(pub RunFault);

impl fmt::Display for RefusalLine {
    fn fmt<W: fmt::Write>(&self, f: &mut fmt::Formatter<W>) -> fmt::Result {
        match self.0 {
            RunFault::Text(Fault::Model(fault)) => write!(f, "{}", ModelLine(fault)),
            RunFault::Text(Fault::Graph(fault)) => write!(f, "{}", GraphLine(fault)),
            RunFault::Text(Fault::Vectors(fault)) => write!(f, "{}", VectorsLine(fault)),
            RunFault::Text(Fault::Points(fault)) => write!(f, "{}", PointsLine(fault)),
            RunFault::ReadModel => write!(f, "cannot read model"),
            RunFault::ReadGraph => write!(f, "cannot read graph"),
            RunFault::ReadVectors => write!(f, "cannot read vectors"),
            RunFault::ReadPoints => write!(f, "cannot read points"),
            RunFault::Write => write!(f, "cannot write"),
            RunFault::Lower(fault) => write!(f, "{}", LowerLine(fault)),
            RunFault::Raise(fault) => write!(f, "{}", RaiseLine(fault)),
            RunFault::TooLargeToPrint => write!(f, "print: C1"),
        }
    }
}

/// Why a run over a model and vectors, one for each of its actions, stopped: the line of a run over three texts, with the action in
/// place of the node: `raise: U1 at action 0, state 5`.
#[derive(Clone, Copy, Debug)]
pub struct BoundRefusalLine(pub RunFault);

impl fmt::Display for BoundRefusalLine {
    fn fmt<W: fmt::Write>(&self, f: &mut fmt::Formatter<W>) -> fmt::Result {
        match self.0 {
            RunFault::Raise(
                RaiseFault::NoConstant {
                    node: action,
                    state,
                    ..
                },
            ) => write!(f, "raise: U1 at action {action}, state {state}"),
            fault => write!(f, "{}", RefusalLine(fault)),
        }
    }
}

#[derive(Clone, Copy)]
struct ModelLine(ModelFault);

impl fmt::Display for ModelLine {
    fn fmt<W: fmt::Write>(&self, f: &mut fmt::Formatter<W>) -> fmt::Result {
        match self.0 {
            ModelFault::Item { kind, item, place } => {
                write!(f, "model: {} in item {item} at byte {place}", Codes(kind))
            }
            ModelFault::RowSum { table, action, row } => {
                write!(f, "model: M17 in {table}, action {action}, row {row}")
            }
            ModelFault::Memory => write!(f, "out of memory"),
        }
    }
}

/// The code of a refusal, and that of the token's or the number's own fault if it has one.
#[derive(Clone, Copy)]
struct Codes(ItemFault);

impl fmt::Display for Codes {
    fn fmt<W: fmt::Write>(&self, f: &mut fmt::Formatter<W>) -> fmt::Result {
        match self.0 {
            ItemFault::Token(fault) => write!(f, "M1 K{}", token_code(fault)),
            ItemFault::Number(fault) => write!(f, "M2 N{}", number_code(fault)),
            kind => write!(f, "M{}", item_code(kind)),
        }
    }
}

#[derive(Clone, Copy)]
struct GraphLine(GraphFault);

impl fmt::Display for GraphLine {
    fn fmt<W: fmt::Write>(&self, f: &mut fmt::Formatter<W>) -> fmt::Result {
        match self.0 {
            GraphFault::Token(fault) => {
                write!(
                    f,
                    "graph: G1 K{} at byte {}",
                    token_code(fault),
                    fault.place()
                )
            }
            GraphFault::BadShape(place) => write!(f, "graph: G2 at byte {place}"),
            GraphFault::NodeOutOfOrder(place) => write!(f, "graph: G3 at byte {place}"),
            GraphFault::ActionOutOfRange(place) => write!(f, "graph: G4 at byte {place}"),
            GraphFault::SuccessorOutOfRange { node, observation } => {
                write!(f, "graph: G5 at node {node}, observation {observation}")
            }
            GraphFault::Truncated(place) => write!(f, "graph: G6 at byte {place}"),
            GraphFault::NoNodes(place) => write!(f, "graph: G7 at byte {place}"),
            GraphFault::TooManyNodes(place) => write!(f, "graph: G8 at byte {place}"),
            GraphFault::Memory => write!(f, "out of memory"),
        }
    }
}

#[derive(Clone, Copy)]
struct VectorsLine(VectorFault);

impl fmt::Display for VectorsLine {
    fn fmt<W: fmt::Write>(&self, f: &mut fmt::Formatter<W>) -> fmt::Result {
        match self.0 {
            VectorFault::Token(fault) => {
                write!(
                    f,
                    "vectors: V1 K{} at byte {}",
                    token_code(fault),
                    fault.place()
                )
            }
            VectorFault::Number { fault, place } => {
                write!(f, "vectors: V2 N{} at byte {place}", number_code(fault))
            }
            VectorFault::BadShape(place) => write!(f, "vectors: V3 at byte {place}"),
            VectorFault::ActionMismatch(place) => write!(f, "vectors: V4 at byte {place}"),
            VectorFault::Truncated(place) => write!(f, "vectors: V5 at byte {place}"),
            VectorFault::WrongVectorCount(place) => write!(f, "vectors: V6 at byte {place}"),
            VectorFault::Memory => write!(f, "out of memory"),
        }
    }
}

#[derive(Clone, Copy)]
struct PointsLine(PointFault);

impl fmt::Display for PointsLine {
    fn fmt<W: fmt::Write>(&self, f: &mut fmt::Formatter<W>) -> fmt::Result {
        match self.0 {
            PointFault::Token(fault) => {
                write!(
                    f,
                    "points: B1 K{} at byte {}",
                    token_code(fault),
                    fault.place()
                )
            }
            PointFault::Number { fault, place } => {
                write!(f, "points: B2 N{} at byte {place}", number_code(fault))
            }
            PointFault::BadShape(place) => write!(f, "points: B3 at byte {place}"),
            PointFault::PointOutOfOrder(place) => write!(f, "points: B4 at byte {place}"),
            PointFault::WrongMass(place) => write!(f, "points: B5 at byte {place}"),
            PointFault::NextOutOfRange {
                point,
                action,
                observation,
            } => write!(
                f,
                "points: B6 at point {point}, action {action}, observation {observation}"
            ),
            PointFault::Truncated(place) => write!(f, "points: B7 at byte {place}"),
            PointFault::TooManyPoints(place) => write!(f, "points: B8 at byte {place}"),
            PointFault::Memory => write!(f, "out of memory"),
        }
    }
}

#[derive(Clone, Copy)]
struct LowerLine(LowerFault);

impl fmt::Display for LowerLine {
    fn fmt<W: fmt::Write>(&self, f: &mut fmt::Formatter<W>) -> fmt::Result {
        match self.0 {
            LowerFault::NoConstant { node, state, .. } => {
                write!(f, "lower: L1 at node {node}, state {state}")
            }
            LowerFault::OutOfRange => write!(f, "lower: L2"),
            LowerFault::NoSuccessor {
                node,
                state,
                observation,
            } => write!(
                f,
                "lower: L3 at node {node}, state {state}, observation {observation}"
            ),
            LowerFault::Memory => write!(f, "out of memory"),
        }
    }
}

#[derive(Clone, Copy)]
struct RaiseLine(RaiseFault);

impl fmt::Display for RaiseLine {
    fn fmt<W: fmt::Write>(&self, f: &mut fmt::Formatter<W>) -> fmt::Result {
        match self.0 {
            RaiseFault::NoConstant { node, state, .. } => {
                write!(f, "raise: U1 at node {node}, state {state}")
            }
            RaiseFault::OutOfRange => write!(f, "raise: U2"),
            RaiseFault::NoSuccessor {
                node,
                state,
                observation,
            } => write!(
                f,
                "raise: U3 at node {node}, state {state}, observation {observation}"
            ),
            RaiseFault::Memory => write!(f, "out of memory"),
        }
    }
}

/// By how much vectors were lowered, as the program prints it, without a line end: `lowered by 0.000001`. The constant is
/// in millionths.
#[derive(Clone, Copy, Debug)]
pub struct LoweredLine(pub i64);

impl fmt::Display for LoweredLine {
    fn fmt<W: fmt::Write>(&self, f: &mut fmt::Formatter<W>) -> fmt::Result {
        write!(f, "lowered by {}", Millionths(self.0))
    }
}

/// By how much vectors or belief points were raised, as the program prints it, without a line end: `raised by 0.000001`. The constant is in
/// millionths.
#[derive(Clone, Copy, Debug)]
pub struct RaisedLine(pub i64);

impl fmt::Display for RaisedLine {
    fn fmt<W: fmt::Write>(&self, f: &mut fmt::Formatter<W>) -> fmt::Result {
        write!(f, "raised by {}", Millionths(self.0))
    }
}

/// A number of millionths, as a decimal number.
#[derive(Clone, Copy)]
struct Millionths(i64);

/// The bytes that a number of millionths needs at most: a sign, 13 digits, a point and 6 decimals.
const NUMBER_ROOM: usize = 21;

impl fmt::Display for Millionths {
    fn fmt<W: fmt::Write>(&self, f: &mut fmt::Formatter<W>) -> fmt::Result {
        let mut room = [0u8; NUMBER_ROOM];
        let mut sink = SliceSink::new(&mut room);
        match write_scaled(self.0, &mut sink) {
            Ok(()) => match str::from_utf8(sink.written()) {
                Ok(number) => write!(f, "{number}"),
                Err(_) => Err(fmt::Error),
            },
            Err(_) => Err(fmt::Error),
        }
    }
}

/// Returns the number after `M` in the line of a refusal.
fn item_code(kind: ItemFault) -> u8 {
    match kind {
        ItemFault::Token(_) => 1,
        ItemFault::Number(_) => 2,
        ItemFault::BeforeFirstItem => 3,
        ItemFault::BadShape => 4,
        ItemFault::DuplicateLine => 5,
        ItemFault::LateLine => 6,
        ItemFault::MissingLine => 7,
        ItemFault::BadCount => 8,
        ItemFault::DuplicateName => 9,
        ItemFault::UnknownName => 10,
        ItemFault::IndexOutOfRange => 11,
        ItemFault::WrongNumberCount => 12,
        ItemFault::ProbabilityRange => 13,
        ItemFault::Reset => 14,
        ItemFault::DiscountRange => 15,
        ItemFault::TooManyCells => 16,
        ItemFault::StartSum => 18,
        ItemFault::StartEmpty => 19,
        ItemFault::TextTooLong => 20,
    }
}

/// Returns the number that says what is wrong with a token.
fn token_code(fault: TokenFault) -> u8 {
    match fault {
        TokenFault::BadByte(_) => 1,
        TokenFault::TokenTooLong(_) => 2,
        TokenFault::Glued(_) => 3,
        TokenFault::TextTooLong(_) => 4,
    }
}

/// Returns the number that says what is wrong with a number.
fn number_code(fault: NumberFault) -> u8 {
    match fault {
        NumberFault::NotANumeral => 1,
        NumberFault::TooLong => 2,
        NumberFault::TooLarge => 3,
        NumberFault::TooFine => 4,
    }
}
