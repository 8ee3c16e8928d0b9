//! The runs, by their names, over slices and over devices.
use polcert_answer::{
    RunFault, run_check, run_check_above, run_lower, run_model, run_print, run_raise,
};
use polcert_bound_answer::{run_bound_check, run_bound_raise};
use polcert_check::{AboveVerdict, NoProgress, Verdict};
use polcert_optimum::InformedVerdict;
use polcert_points_answer::{PointBoundVerdict, run_point_check, run_point_raise};
use polcert_testing::{Failing, Giver, Taker};
use polcert_text::{ReaderSource, Sink, SliceSource, Source, WriterSink};
use std::alloc::Global;

/// The texts of a model and of what is read with it: a graph and its vectors, vectors for the actions, or these and points. A run that
/// reads fewer texts has empty ones in place of the others.
pub type Texts<'a> = (&'a [u8], &'a [u8], &'a [u8]);

/// A text of a run, in the order in which the run reads them.
#[derive(Clone, Copy, Debug, PartialEq)]
pub enum Text {
    First,
    Second,
    Third,
}

#[derive(Clone, Copy, Debug, PartialEq)]
pub enum Run {
    Model,
    Print,
    Check,
    Lower,
    CheckAbove,
    Raise,
    BoundCheck,
    BoundRaise,
    PointCheck,
    PointRaise,
}

pub const RUNS: [Run; 10] = [
    Run::Model,
    Run::Print,
    Run::Check,
    Run::Lower,
    Run::CheckAbove,
    Run::Raise,
    Run::BoundCheck,
    Run::BoundRaise,
    Run::PointCheck,
    Run::PointRaise,
];

/// What a run answers.
#[derive(Clone, Copy, Debug, PartialEq)]
pub enum Answer {
    Done,
    Verdict(Verdict),
    SaidAbove(AboveVerdict),
    By(i64),
    OfBound(InformedVerdict),
    OfPoints(PointBoundVerdict),
    PointsBy(u64),
}

impl Text {
    /// The text of this place.
    pub fn of(self, texts: Texts<'_>) -> &[u8] {
        match self {
            Text::First => texts.0,
            Text::Second => texts.1,
            Text::Third => texts.2,
        }
    }

    /// Devices of which the source of this text fails at the read of this number.
    pub fn failing(self, read: u64) -> Devices {
        let failing = match self {
            Text::First => (Some(read), None, None),
            Text::Second => (None, Some(read), None),
            Text::Third => (None, None, Some(read)),
        };
        Devices { failing, ..SOUND }
    }

    /// The texts, this one without what is after its first `len` bytes.
    pub fn cut(self, texts: Texts<'_>, len: usize) -> Texts<'_> {
        let text = self.of(texts);
        let (front, _) = text.split_at(len.min(text.len()));
        match self {
            Text::First => (front, texts.1, texts.2),
            Text::Second => (texts.0, front, texts.2),
            Text::Third => (texts.0, texts.1, front),
        }
    }
}

const ONE: &[Text] = &[Text::First];

const TWO: &[Text] = &[Text::First, Text::Second];

const THREE: &[Text] = &[Text::First, Text::Second, Text::Third];

impl Run {
    /// The texts that the run reads.
    pub fn texts(self) -> &'static [Text] {
        match self.last_text() {
            Text::First => ONE,
            Text::Second => TWO,
            Text::Third => THREE,
        }
    }

    /// The last text that the run reads.
    pub fn last_text(self) -> Text {
        match self {
            Run::Model | Run::Print => Text::First,
            Run::BoundCheck | Run::BoundRaise => Text::Second,
            _ => Text::Third,
        }
    }

    /// The fault of the run if it cannot read this text.
    pub fn read_fault(self, text: Text) -> RunFault {
        let has_points = self == Run::PointCheck || self == Run::PointRaise;
        match text {
            Text::First => RunFault::ReadModel,
            Text::Second => {
                if has_points || self == Run::BoundCheck || self == Run::BoundRaise {
                    RunFault::ReadVectors
                } else {
                    RunFault::ReadGraph
                }
            }
            Text::Third => {
                if has_points {
                    RunFault::ReadPoints
                } else {
                    RunFault::ReadVectors
                }
            }
        }
    }

    /// What the run answers over these sources and this sink.
    pub fn over<M: Source, G: Source, V: Source, W: Sink>(
        self,
        alloc: Global,
        model: &mut M,
        second: &mut G,
        third: &mut V,
        sink: &mut W,
    ) -> Result<Answer, RunFault> {
        match self {
            Run::Model => {
                run_model(alloc, model, sink)?;
                Ok(Answer::Done)
            }
            Run::Print => {
                run_print(alloc, model, sink)?;
                Ok(Answer::Done)
            }
            Run::Check => {
                let verdict = run_check(alloc, model, second, third, sink)?;
                Ok(Answer::Verdict(verdict))
            }
            Run::Lower => {
                let by = run_lower(alloc, model, second, third, sink)?;
                Ok(Answer::By(by))
            }
            Run::CheckAbove => {
                let verdict = run_check_above(alloc, model, second, third, sink)?;
                Ok(Answer::SaidAbove(verdict))
            }
            Run::Raise => {
                let by = run_raise(alloc, model, second, third, sink)?;
                Ok(Answer::By(by))
            }
            _ => self.bound_over(alloc, model, second, third, sink),
        }
    }

    /// The same of a run that bounds what every policy earns.
    fn bound_over<M: Source, G: Source, V: Source, W: Sink>(
        self,
        alloc: Global,
        model: &mut M,
        vectors: &mut G,
        points: &mut V,
        sink: &mut W,
    ) -> Result<Answer, RunFault> {
        match self {
            Run::BoundCheck => {
                let verdict = run_bound_check(alloc, model, vectors, sink, &mut NoProgress)?;
                Ok(Answer::OfBound(verdict))
            }
            Run::BoundRaise => {
                let by = run_bound_raise(alloc, model, vectors, sink)?;
                Ok(Answer::By(by))
            }
            Run::PointCheck => {
                let verdict = run_point_check(
                    alloc,
                    model,
                    vectors,
                    points,
                    sink,
                    &mut NoProgress,
                )?;
                Ok(Answer::OfPoints(verdict))
            }
            _ => {
                let by = run_point_raise(alloc, model, vectors, points, sink)?;
                Ok(Answer::PointsBy(by))
            }
        }
    }
}

/// The most bytes that a source gives at a read, and where each device fails.
#[derive(Clone, Copy)]
pub struct Devices {
    pub most: usize,
    /// The read at which the source of the first, the second and the third text fails.
    pub failing: (Option<u64>, Option<u64>, Option<u64>),
    pub sink: Failing,
}

/// Devices of one byte at a time, of which none fails.
pub const SOUND: Devices = Devices {
    most: 1,
    failing: (None, None, None),
    sink: Failing::Never,
};

/// What a run answered, what was written, and how often each device was asked and failed.
#[derive(Drop)]
pub struct Outcome {
    pub answer: Result<Answer, RunFault>,
    pub written: Vec<u8>,
    /// The reads of the first, the second and the third text.
    pub reads: (u64, u64, u64),
    pub writes: u64,
    /// Of all four.
    pub failures: u64,
}

/// What a run comes to over readers and a writer that may fail.
pub fn over_devices(alloc: Global, run: Run, texts: Texts<'_>, devices: Devices) -> Outcome {
    let most = devices.most;
    let mut model = ReaderSource::new(Giver::new(texts.0, most, devices.failing.0));
    let mut second = ReaderSource::new(Giver::new(texts.1, most, devices.failing.1));
    let mut third = ReaderSource::new(Giver::new(texts.2, most, devices.failing.2));
    let mut sink = WriterSink::new(Taker::new(alloc, devices.sink));
    let answer = run.over(alloc, &mut model, &mut second, &mut third, &mut sink);
    let failures = model
        .failures()
        .saturating_add(second.failures())
        .saturating_add(third.failures())
        .saturating_add(sink.failures());
    Outcome {
        answer,
        reads: (model.reader.reads, second.reader.reads, third.reader.reads),
        writes: sink.writer.writes,
        failures,
        written: sink.writer.taken,
    }
}

/// What a run comes to over texts in memory.
pub fn over_slices(alloc: Global, run: Run, texts: Texts<'_>) -> Outcome {
    let mut sink = WriterSink::new(Taker::new(alloc, Failing::Never));
    let answer = run.over(
        alloc,
        &mut SliceSource::new(texts.0),
        &mut SliceSource::new(texts.1),
        &mut SliceSource::new(texts.2),
        &mut sink,
    );
    Outcome {
        answer,
        reads: (0, 0, 0),
        writes: sink.writer.writes,
        failures: sink.failures(),
        written: sink.writer.taken,
    }
}

impl Outcome {
    /// Whether the run answered and wrote this.
    pub fn has_given(&self, answer: Result<Answer, RunFault>, written: &[u8]) -> bool {
        self.answer == answer && self.written.as_slice() == written
    }
}
