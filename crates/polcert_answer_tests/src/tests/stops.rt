//! The line and the exit status of a run that stops.
use polcert_answer::{Fault, RunFault, status_of};
use polcert_check::{LowerFault, RaiseFault};
use polcert_lines::RefusalLine;
use polcert_model::{ItemFault, ModelFault};
use polcert_policy::{GraphFault, PointFault, VectorFault};
use polcert_testing::expect_eq;
use polcert_text::NumberFault;
use std::alloc::Global;
use std::test::Fail;

/// Why a run stops, the line, and the exit status: out of memory, a text of four gigabytes, a code that no text gets, and rows with each
/// other status.
const STOPS: &[(RunFault, &str, u8)] = &[
    (
        RunFault::Text(Fault::Model(ModelFault::Memory)),
        "out of memory",
        4,
    ),
    (
        RunFault::Text(Fault::Graph(GraphFault::Memory)),
        "out of memory",
        4,
    ),
    (
        RunFault::Text(Fault::Vectors(VectorFault::Memory)),
        "out of memory",
        4,
    ),
    (
        RunFault::Text(Fault::Points(PointFault::Memory)),
        "out of memory",
        4,
    ),
    (RunFault::Lower(LowerFault::Memory), "out of memory", 4),
    (RunFault::Raise(RaiseFault::Memory), "out of memory", 4),
    (
        RunFault::Text(Fault::Model(ModelFault::Item {
            kind: ItemFault::TextTooLong,
            item: 3,
            place: 4_294_967_296,
        })),
        "model: M20 in item 3 at byte 4294967296",
        2,
    ),
    (
        RunFault::Text(Fault::Model(ModelFault::Item {
            kind: ItemFault::Number(NumberFault::NotANumeral),
            item: 1,
            place: 2,
        })),
        "model: M2 N1 in item 1 at byte 2",
        2,
    ),
    (
        RunFault::Text(Fault::Points(PointFault::TooManyPoints(10))),
        "points: B8 at byte 10",
        2,
    ),
    (RunFault::TooLargeToPrint, "print: C1", 2),
    (RunFault::ReadModel, "cannot read model", 3),
    (RunFault::ReadGraph, "cannot read graph", 3),
    (RunFault::ReadVectors, "cannot read vectors", 3),
    (RunFault::ReadPoints, "cannot read points", 3),
    (RunFault::Write, "cannot write", 3),
    (RunFault::Lower(LowerFault::OutOfRange), "lower: L2", 1),
    (RunFault::Raise(RaiseFault::OutOfRange), "raise: U2", 1),
];

/// Whether this is the line of the fault.
fn has_line(alloc: Global, fault: RunFault, line: &str) -> bool {
    match format!(in alloc; "{}", RefusalLine(fault)) {
        Ok(printed) => printed.as_str() == line,
        Err(_) => false,
    }
}

#[test]
fn lines_and_statuses(rt: HostRuntime) -> Result<(), Fail> {
    for &(fault, line, status) in STOPS {
        expect_eq!(rt; has_line(rt.alloc(), fault, line), true, line);
        expect_eq!(rt; status_of(&fault), status, line);
    }
    let fault = RunFault::TooLargeToPrint;
    expect_eq!(rt; format!(in rt.alloc(); "{fault}")?.as_str(), "print: C1");
    Ok(())
}
