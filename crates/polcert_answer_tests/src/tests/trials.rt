//! Runs over devices that fail at each of their calls, by tables: a trial more is a line more.
use super::runs::{Answer, Devices, RUNS, Run, SOUND, Text, Texts, over_devices};
use super::texts::{COIN, EITHER, EVEN, GAIN, LOSS, SEEN};
use super::{LINE, item};
use polcert_answer::{Fault, RunFault};
use polcert_check::{AboveVerdict, LowerFault, RaiseFault, Verdict};
use polcert_model::{ItemFault, ModelFault};
use polcert_optimum::InformedVerdict;
use polcert_points_answer::PointBoundVerdict;
use polcert_policy::{GraphFault, PointFault, VectorFault};
use polcert_testing::{
    ALWAYS_FIRST, COST, Endless, FIRST, FIRST_FORM, Failing, MDP, TIGER, TWO_STATES, Taker,
    expect_eq, refused_models,
};
use polcert_text::{NumberFault, ReaderSource, TokenFault, WriterSink};
use std::alloc::Global;

/// A run, its texts, what it answers and what it writes.
type Trial = (Run, Texts<'static>, Answer, &'static [u8]);

/// Vectors of listening for a tiger that are too high, and too low.
pub const HIGH: Texts<'static> = (TIGER, b"0 0 0 0", b"0 -19.999999 -19.999999");

pub const LOW: Texts<'static> = (TIGER, b"0 0 0 0", b"0 -20.000001 -20.000001");

const AMOUNT: i128 = 200_000_000_000_000_000;

const WRITTEN: [Trial; 13] = [
    (Run::Model, (FIRST, b"", b""), Answer::Done, LINE),
    (
        Run::Model,
        (MDP, b"", b""),
        Answer::Done,
        b"mdp: 2 states, 1 actions, discount 0.5, reward\n",
    ),
    (Run::Print, (FIRST, b"", b""), Answer::Done, FIRST_FORM),
    (
        Run::Check,
        (TIGER, b"0 0 0 0", b"0 -20 -20"),
        Answer::Verdict(Verdict::Yes),
        b"yes: start node 0, at least -20\n",
    ),
    (
        Run::Check,
        HIGH,
        Answer::Verdict(Verdict::Short {
            node: 0,
            state: 0,
            amount: AMOUNT,
        }),
        b"no: node 0, state 0, short by 0.000001\n",
    ),
    (
        Run::Check,
        (EITHER, b"0 0 0 -", b"0 0"),
        Answer::Verdict(Verdict::NoSuccessor {
            node: 0,
            state: 0,
            observation: 1,
        }),
        b"no: node 0, state 0, observation 1 has no successor\n",
    ),
    (Run::Lower, HIGH, Answer::By(1), b"0\n-20 -20\n\n"),
    (
        Run::CheckAbove,
        LOW,
        Answer::SaidAbove(AboveVerdict::Long {
            node: 0,
            state: 0,
            amount: AMOUNT,
        }),
        b"no: node 0, state 0, long by 0.000001\n",
    ),
    (Run::Raise, LOW, Answer::By(1), b"0\n-20 -20\n\n"),
    (
        Run::BoundCheck,
        (GAIN, b"0 5", b""),
        Answer::OfBound(InformedVerdict::Exceeded {
            action: 0,
            state: 0,
            amount: 1_000_000_000_000_000_000_000_000,
        }),
        b"no: action 0, state 0, exceeded by 1\n",
    ),
    (
        Run::BoundRaise,
        (MDP, b"0 1.333333 0.666666", b""),
        Answer::By(1),
        b"0\n1.333334 0.666667\n\n",
    ),
    (
        Run::PointCheck,
        (COIN, SEEN, EVEN),
        Answer::OfPoints(PointBoundVerdict::Yes),
        b"yes: every policy, at most 1\n",
    ),
    (
        Run::PointRaise,
        (COIN, SEEN, b"0 0.5 0.5 1 0 0.999999 0"),
        Answer::PointsBy(2),
        b"0 0.5 0.5\n1.000002 0\n1.000001 0\n",
    ),
];

/// The trials of WRITTEN. (A function, so that a test is proved without the table.)
fn written() -> [Trial; 13] {
    WRITTEN
}

/// How often the texts are read up to the end of this one, a byte at a time: each byte once, and after the last a read finds the end.
fn reads_through(texts: Texts<'_>, last: Text) -> (u64, u64, u64) {
    let first = (texts.0.len() as u64).saturating_add(1);
    let second = (texts.1.len() as u64).saturating_add(1);
    let third = (texts.2.len() as u64).saturating_add(1);
    match last {
        Text::First => (first, 0, 0),
        Text::Second => (first, second, 0),
        Text::Third => (first, second, third),
    }
}

/// Whether the trial answers and writes what it is to, each byte of all texts is read once, each byte of the answer is written once, and no
/// device fails.
fn is_done_once(alloc: Global, trial: Trial) -> bool {
    let (run, texts, answer, written) = trial;
    let outcome = over_devices(alloc, run, texts, SOUND);
    outcome.failures == 0
        && outcome.reads == reads_through(texts, run.last_text())
        && outcome.writes == written.len() as u64
        && outcome.has_given(Ok(answer), written)
}

/// The first of the trials that answers otherwise, or whose bytes are not read or written once each.
fn first_not_done_once(alloc: Global, trials: &[Trial]) -> Option<usize> {
    for row in 0..trials.len() {
        if !is_done_once(alloc, trials[row]) {
            return Some(row);
        }
    }
    None
}

#[test]
fn each_byte_is_read_and_written_once(rt: HostRuntime) {
    expect_eq!(rt; first_not_done_once(rt.alloc(), &written()), None);
}

/// A run that stops at a text, with this fault, once it has read it this often.
#[derive(Clone, Copy)]
struct Stop {
    run: Run,
    texts: Texts<'static>,
    text: Text,
    fault: RunFault,
    reads: usize,
}

/// Whether the run stops before it writes if the source of the text fails at the read of this number. Up to the read that decides, the
/// source is named; after it the text is refused as ever. Neither the source nor what comes after it is asked again.
fn stops_so(alloc: Global, stop: Stop, read: usize) -> bool {
    let Stop {
        run,
        texts,
        text,
        fault,
        reads,
    } = stop;
    let (fault, failures) = if read < reads {
        (run.read_fault(text), 1)
    } else {
        (fault, 0)
    };
    let before = read.min(reads.saturating_sub(1));
    let outcome = over_devices(alloc, run, texts, text.failing(read as u64));
    outcome.failures == failures
        && outcome.reads == reads_through(text.cut(texts, before), text)
        && outcome.writes == 0
        && outcome.has_given(Err(fault), b"")
}

/// The first read, of those up to the one of this number, whose failure is answered otherwise.
fn first_wrong_read(alloc: Global, stop: Stop, last: usize) -> Option<usize> {
    for read in 0..=last {
        if !stops_so(alloc, stop, read) {
            return Some(read);
        }
    }
    None
}

/// The first of the trials of which a failing read of a text is answered otherwise, and the read.
fn first_unnamed(alloc: Global, trials: &[Trial]) -> Option<(usize, usize)> {
    for row in 0..trials.len() {
        let (run, texts, _, _) = trials[row];
        for &text in run.texts() {
            let last = text.of(texts).len();
            let stop = Stop {
                run,
                texts,
                text,
                fault: run.read_fault(text),
                reads: last.saturating_add(1),
            };
            if let Some(read) = first_wrong_read(alloc, stop, last) {
                return Some((row, read));
            }
        }
    }
    None
}

/// A source that fails is named, nothing is written, and neither it nor what comes after it is asked again.
#[test]
fn each_read_fails(rt: HostRuntime) {
    expect_eq!(rt; first_unnamed(rt.alloc(), &written()), None);
}

/// Whether a sink that fails so after this text is named, and not asked again.
fn is_cut_off(alloc: Global, run: Run, texts: Texts<'_>, sink: Failing, written: &[u8]) -> bool {
    let outcome = over_devices(alloc, run, texts, Devices { sink, ..SOUND });
    outcome.failures == 1
        && outcome.writes == (written.len() as u64).saturating_add(1)
        && outcome.has_given(Err(RunFault::Write), written)
}

/// The first failure of a write that is answered otherwise, if the run would write this.
fn first_wrong_write(alloc: Global, run: Run, texts: Texts<'_>, written: &[u8]) -> Option<Failing> {
    for write in 0..written.len() {
        let front = &written[..write];
        let fails = Failing::Fails(write as u64);
        if !is_cut_off(alloc, run, texts, fails, front) {
            return Some(fails);
        }
        let takes_nothing = Failing::TakesNothing(write as u64);
        if !is_cut_off(alloc, run, texts, takes_nothing, front) {
            return Some(takes_nothing);
        }
    }
    None
}

/// The first of the trials of which a failure of a write is answered otherwise, and the failure.
fn first_cut_off_wrongly(alloc: Global, trials: &[Trial]) -> Option<(usize, Failing)> {
    for row in 0..trials.len() {
        let (run, texts, _, written) = trials[row];
        if let Some(failing) = first_wrong_write(alloc, run, texts, written) {
            return Some((row, failing));
        }
    }
    None
}

/// A write that fails, or that takes nothing, is not tried again. What was taken is a beginning of the answer.
#[test]
fn each_write_fails(rt: HostRuntime) {
    expect_eq!(rt; first_cut_off_wrongly(rt.alloc(), &written()), None);
}

/// Where the sources fail of devices that all fail, and then of those of which the first, the first two and the first three don't; and the
/// text that is named, or none if it is the sink.
const FAILING: [((Option<u64>, Option<u64>, Option<u64>), Option<Text>); 4] = [
    ((Some(3), Some(2), Some(1)), Some(Text::First)),
    ((None, Some(2), Some(1)), Some(Text::Second)),
    ((None, None, Some(1)), Some(Text::Third)),
    ((None, None, None), None),
];

/// Whether the run stops with this fault after one failure, and nothing is written.
fn stops(alloc: Global, run: Run, texts: Texts<'_>, devices: Devices, fault: RunFault) -> bool {
    let outcome = over_devices(alloc, run, texts, devices);
    outcome.failures == 1 && outcome.has_given(Err(fault), b"")
}

/// The first of the trials that reads three texts and does not name this text, or else the sink.
fn first_misnamed(
    alloc: Global,
    trials: &[Trial],
    devices: Devices,
    text: Option<Text>,
) -> Option<usize> {
    for row in 0..trials.len() {
        let (run, texts, _, _) = trials[row];
        let fault = match text {
            Some(text) => run.read_fault(text),
            None => RunFault::Write,
        };
        if run.last_text() == Text::Third && !stops(alloc, run, texts, devices, fault) {
            return Some(row);
        }
    }
    None
}

/// Of several devices that fail the first is named, in the order of the run.
#[test]
fn the_first_device_that_fails_is_named(rt: HostRuntime) {
    for (failing, text) in FAILING {
        let devices = Devices {
            most: 1,
            failing,
            sink: Failing::Fails(0),
        };
        expect_eq!(rt; first_misnamed(rt.alloc(), &written(), devices, text), None, text);
    }
}

/// Three texts, the first of them that denotes nothing, its fault, and how often that text is read before the answer.
pub type Refusal = (Texts<'static>, Text, Fault, usize);

/// Texts that a check refuses, with reads of a byte. Each count is typed from the format, not taken from a run: a mark, and a byte that
/// begins no token, is known with its byte; any other token with the byte after it; and the end of the text by one read more than it has
/// bytes.
const REFUSALS: [Refusal; 20] = [
    // `discount: 2`: the number ends with the text, 11 bytes and the end
    (
        (b"discount: 2", b"", b""),
        Text::First,
        Fault::Model(ModelFault::Item {
            kind: ItemFault::DiscountRange,
            item: 1,
            place: 10,
        }),
        12,
    ),
    // no node: the end of the empty graph
    (
        (TIGER, b"", b""),
        Text::Second,
        Fault::Graph(GraphFault::NoNodes(0)),
        1,
    ),
    // `0 0 -1`: the numeral after `-` ends at byte 6
    (
        (EITHER, b"0 0 -1 0", b"0 0"),
        Text::Second,
        Fault::Graph(GraphFault::BadShape(4)),
        7,
    ),
    // `0 0 0 1`: how many nodes there are is known at the end
    (
        (EITHER, b"0 0 0 1", b"0 0"),
        Text::Second,
        Fault::Graph(GraphFault::SuccessorOutOfRange {
            node: 0,
            observation: 1,
        }),
        8,
    ),
    // `0 0 0 0 0`: the node at byte 8 ends at byte 9
    (
        (TIGER, b"0 0 0 0 0 0 0 0", b"0 -20 -20"),
        Text::Second,
        Fault::Graph(GraphFault::NodeOutOfOrder(8)),
        10,
    ),
    // `0 0 0`: 5 bytes and the end
    (
        (TIGER, b"0 0 0", b"0 -20 -20"),
        Text::Second,
        Fault::Graph(GraphFault::Truncated(5)),
        6,
    ),
    // `0 3`: the action at byte 2 ends at byte 3
    (
        (TIGER, b"0 3 0 0", b"0 -20 -20"),
        Text::Second,
        Fault::Graph(GraphFault::ActionOutOfRange(2)),
        4,
    ),
    // `0 0 0 ;`: no token begins with byte 6
    (
        (TIGER, b"0 0 0 ;", b"0 -20 -20"),
        Text::Second,
        Fault::Graph(GraphFault::Token(TokenFault::BadByte(6))),
        7,
    ),
    // `0 -20 -20 0`: the action at byte 10 ends at byte 11
    (
        (TIGER, b"0 0 0 0", b"0 -20 -20 0 -20 -20"),
        Text::Third,
        Fault::Vectors(VectorFault::WrongVectorCount(10)),
        12,
    ),
    // no vector: the end of the empty text
    (
        (TIGER, b"0 0 0 0", b""),
        Text::Third,
        Fault::Vectors(VectorFault::WrongVectorCount(0)),
        1,
    ),
    // `1`: the action at byte 0 ends at byte 1
    (
        (TIGER, b"0 0 0 0", b"1 -20 -20"),
        Text::Third,
        Fault::Vectors(VectorFault::ActionMismatch(0)),
        2,
    ),
    // `0 -20 x`: the name ends with the text, 7 bytes and the end
    (
        (TIGER, b"0 0 0 0", b"0 -20 x"),
        Text::Third,
        Fault::Vectors(VectorFault::BadShape(6)),
        8,
    ),
    // `0 -20 ;`: no token begins with byte 6
    (
        (TIGER, b"0 0 0 0", b"0 -20 ;"),
        Text::Third,
        Fault::Vectors(VectorFault::Token(TokenFault::BadByte(6))),
        7,
    ),
    // `0 -20 -1e8`: the numeral ends with the text, 10 bytes and the end
    (
        (TIGER, b"0 0 0 0", b"0 -20 -1e8"),
        Text::Third,
        Fault::Vectors(VectorFault::Number {
            fault: NumberFault::TooLarge,
            place: 6,
        }),
        11,
    ),
    // `0 -20 -`: a number is missing at the end, after 7 bytes
    (
        (TIGER, b"0 0 0 0", b"0 -20 -"),
        Text::Third,
        Fault::Vectors(VectorFault::Truncated(7)),
        8,
    ),
    // `0 -20`: a number is missing at the end, after 5 bytes
    (
        (TIGER, b"0 0 0 0", b"0 -20"),
        Text::Third,
        Fault::Vectors(VectorFault::Truncated(5)),
        6,
    ),
    // `0 0 0 0`, one observation: the node at byte 6 ends with the text
    (
        (COST, b"0 0 0 0", b"0 -20 -20"),
        Text::Second,
        Fault::Graph(GraphFault::NodeOutOfOrder(6)),
        8,
    ),
    // `0`: the action at byte 0 ends at byte 1
    (
        (TIGER, b"0 1 0 0", b"0 -20 -20"),
        Text::Third,
        Fault::Vectors(VectorFault::ActionMismatch(0)),
        2,
    ),
    // `0 -20 -`, one state: the mark at byte 6 begins a vector too many
    (
        (ALWAYS_FIRST, b"0 0 0 0", b"0 -20 -20"),
        Text::Third,
        Fault::Vectors(VectorFault::WrongVectorCount(6)),
        7,
    ),
    // `0 1 1`: a vector is missing at the end, after 5 bytes
    (
        (TWO_STATES, b"0 0 0 1 0 0", b"0 1 1"),
        Text::Third,
        Fault::Vectors(VectorFault::WrongVectorCount(5)),
        6,
    ),
];

/// The rows of REFUSALS. (A function, so that a test is proved without the table.)
pub fn refusals() -> [Refusal; 20] {
    REFUSALS
}

/// The same of the texts of `refused_models`.
const READS_OF_MODELS: [usize; 10] = [
    1, // the end of the empty text
    6, // `hello`: the name ends at byte 5
    37, // `.. states: 0`: the count ends with the text, 36 bytes and the end
    12, // `discount: 2`: 11 bytes and the end
    21, // `discount: 1 discount`: the second name ends at byte 20
    14, // `discount: 1.2.`: the point at byte 13 is glued to the numeral
    20, // `discount: 0.1234567`: 19 bytes and the end
    16, // `discount: 1e400`: 15 bytes and the end
    16, // `discount: 0e400`: 15 bytes and the end, where a line is missing
    75, // `.. reset`: the name ends with the text, 74 bytes and the end
];

/// Models that are refused at a mark, and how often they are read: as many bytes as there are up to the mark and with it.
const AT_MARKS: [(&[u8], ItemFault, u64, u64); 4] = [
    (b"discount:: 1", ItemFault::BadShape, 1, 9),
    (b"discount: * 1", ItemFault::BadShape, 1, 10),
    (b"discount: 1 + 1", ItemFault::WrongNumberCount, 1, 12),
    (b"discount: 1 - 1", ItemFault::WrongNumberCount, 1, 12),
];

const READS_AT_MARKS: [usize; 4] = [10, 11, 13, 13];

/// The first row of which a failing read is answered otherwise where it is printed, and the read.
fn first_wrong_in_print(
    alloc: Global,
    rows: &[(&'static [u8], ItemFault, u64, u64)],
    reads: &[usize],
) -> Option<(usize, usize)> {
    for row in 0..rows.len().min(reads.len()) {
        let (model, kind, number, place) = rows[row];
        let stop = Stop {
            run: Run::Print,
            texts: (model, b"".as_slice(), b"".as_slice()),
            text: Text::First,
            fault: item(kind, number, place),
            reads: reads[row],
        };
        if let Some(read) = first_wrong_read(alloc, stop, model.len().saturating_add(1)) {
            return Some((row, read));
        }
    }
    None
}

#[test]
fn refused_or_failed(rt: HostRuntime) {
    for (texts, text, fault, reads) in refusals() {
        let stop = Stop {
            run: Run::Check,
            texts,
            text,
            fault: RunFault::Text(fault),
            reads,
        };
        let last = text.of(texts).len().saturating_add(1);
        expect_eq!(rt; first_wrong_read(rt.alloc(), stop, last), None, fault);
    }
    expect_eq!(rt;
        first_wrong_in_print(rt.alloc(), &refused_models(), &READS_OF_MODELS),
        None
    );
    expect_eq!(rt;
        first_wrong_in_print(rt.alloc(), &AT_MARKS, &READS_AT_MARKS),
        None
    );
}

/// What the run answers, how often each text is read, and how often the answer is written, with sources that fill a piece.
fn outcome_of(
    alloc: Global,
    run: Run,
    texts: Texts<'_>,
) -> (Result<Answer, RunFault>, (u64, u64, u64), u64) {
    let devices = Devices {
        most: 4_096,
        ..SOUND
    };
    let outcome = over_devices(alloc, run, texts, devices);
    (outcome.answer, outcome.reads, outcome.writes)
}

/// Texts whose vectors no constant lowers or raises to pass, and by how much they fail.
const UNMOVED: &[(Run, Texts<'static>, RunFault)] = &[
    (
        Run::Lower,
        (LOSS, b"0 0 0", b"0 5"),
        RunFault::Lower(LowerFault::NoConstant {
            node: 0,
            state: 0,
            amount: 1_000_000_000_000_000_000_000_000,
        }),
    ),
    (Run::Raise, (GAIN, b"0 0 0", b"0 5"), UNRAISED),
    (Run::BoundRaise, (GAIN, b"0 5", b""), UNRAISED),
    (Run::PointRaise, (GAIN, b"0 5", b"0 1 5 0"), UNRAISED),
];

const UNRAISED: RunFault = RunFault::Raise(RaiseFault::NoConstant {
    node: 0,
    state: 0,
    amount: 1_000_000_000_000_000_000_000_000,
});

/// Lowering, a check from above and raising refuse the texts as a check does, and a run that can't move its vectors stops. None writes.
#[test]
fn each_run_refuses(rt: HostRuntime) {
    for run in [Run::Lower, Run::CheckAbove, Run::Raise] {
        for (texts, _, fault, _) in refusals() {
            let (answer, _, writes) = outcome_of(rt.alloc(), run, texts);
            expect_eq!(rt; answer, Err(RunFault::Text(fault)), run);
            expect_eq!(rt; writes, 0, run);
        }
    }
    for &(run, texts, fault) in UNMOVED {
        let (answer, _, writes) = outcome_of(rt.alloc(), run, texts);
        expect_eq!(rt; answer, Err(fault), run);
        expect_eq!(rt; writes, 0, run);
    }
}

/// A source that gives `1` for ever.
fn endless() -> ReaderSource<Endless> {
    ReaderSource::new(Endless::new(b'1'))
}

/// Whether a run refuses a model of endless `1` after one read, and reads and writes nothing more.
fn refuses_endless(alloc: Global, run: Run) -> bool {
    let token = ItemFault::Token(TokenFault::TokenTooLong(0));
    let (mut model, mut second, mut third) = (endless(), endless(), endless());
    let mut sink = WriterSink::new(Taker::new(alloc, Failing::Never));
    let answer = run.over(alloc, &mut model, &mut second, &mut third, &mut sink);
    answer == Err(item(token, 0, 0))
        && model.reader.reads == 1
        && second.reader.reads == 0
        && third.reader.reads == 0
        && sink.writer.writes == 0
}

/// A text of more digits than a token has.
const DIGITS: &[u8] = &[b'1'; 500];

/// Texts of which the last one that is not empty has too many digits, by a run that reads them, the fault, and the reads.
const TOO_LONG: &[(Run, Texts<'static>, Fault, (u64, u64, u64))] = &[
    (
        Run::Check,
        (EITHER, DIGITS, b""),
        Fault::Graph(GraphFault::Token(TokenFault::TokenTooLong(0))),
        (2, 1, 0),
    ),
    (
        Run::Check,
        (EITHER, b"0 0 0 0", DIGITS),
        Fault::Vectors(VectorFault::Token(TokenFault::TokenTooLong(0))),
        (2, 2, 1),
    ),
    (
        Run::Lower,
        (EITHER, DIGITS, b""),
        Fault::Graph(GraphFault::Token(TokenFault::TokenTooLong(0))),
        (2, 1, 0),
    ),
    (
        Run::Lower,
        (EITHER, b"0 0 0 0", DIGITS),
        Fault::Vectors(VectorFault::Token(TokenFault::TokenTooLong(0))),
        (2, 2, 1),
    ),
    (
        Run::CheckAbove,
        (EITHER, DIGITS, b""),
        Fault::Graph(GraphFault::Token(TokenFault::TokenTooLong(0))),
        (2, 1, 0),
    ),
    (
        Run::CheckAbove,
        (EITHER, b"0 0 0 0", DIGITS),
        Fault::Vectors(VectorFault::Token(TokenFault::TokenTooLong(0))),
        (2, 2, 1),
    ),
    (
        Run::Raise,
        (EITHER, DIGITS, b""),
        Fault::Graph(GraphFault::Token(TokenFault::TokenTooLong(0))),
        (2, 1, 0),
    ),
    (
        Run::Raise,
        (EITHER, b"0 0 0 0", DIGITS),
        Fault::Vectors(VectorFault::Token(TokenFault::TokenTooLong(0))),
        (2, 2, 1),
    ),
    (
        Run::BoundCheck,
        (EITHER, DIGITS, b""),
        Fault::Vectors(VectorFault::Token(TokenFault::TokenTooLong(0))),
        (2, 1, 0),
    ),
    (
        Run::BoundRaise,
        (EITHER, DIGITS, b""),
        Fault::Vectors(VectorFault::Token(TokenFault::TokenTooLong(0))),
        (2, 1, 0),
    ),
    (
        Run::PointCheck,
        (EITHER, DIGITS, b""),
        Fault::Vectors(VectorFault::Token(TokenFault::TokenTooLong(0))),
        (2, 1, 0),
    ),
    (
        Run::PointRaise,
        (EITHER, DIGITS, b""),
        Fault::Vectors(VectorFault::Token(TokenFault::TokenTooLong(0))),
        (2, 1, 0),
    ),
    (
        Run::PointCheck,
        (EITHER, b"0 0", DIGITS),
        Fault::Points(PointFault::Token(TokenFault::TokenTooLong(0))),
        (2, 2, 1),
    ),
    (
        Run::PointRaise,
        (EITHER, b"0 0", DIGITS),
        Fault::Points(PointFault::Token(TokenFault::TokenTooLong(0))),
        (2, 2, 1),
    ),
];

/// A text of endless digits is refused at its first token, which is too long, after one read that filled its piece.
#[test]
fn endless_texts(rt: HostRuntime) {
    for run in RUNS {
        expect_eq!(rt; refuses_endless(rt.alloc(), run), true, run);
    }
    for &(run, texts, fault, reads) in TOO_LONG {
        let wanted = (Err(RunFault::Text(fault)), reads, 0);
        expect_eq!(rt; outcome_of(rt.alloc(), run, texts), wanted, run);
    }
}
