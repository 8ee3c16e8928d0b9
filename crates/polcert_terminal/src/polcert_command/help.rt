//! The texts of the help of `polcert`.

use crate::command_line::HelpTexts;

pub const ABOUT: &str =
    "Certify in exact arithmetic what a finite-state controller of a POMDP is worth";

pub const DETAILS: &str = "Without a command, polcert summarizes the model on standard input.

A yes means: for every number of steps, from every node and every state, the
expected discounted reward of these steps, plus the discounted vector value
where they end, is at least the vector's value (with --at-most: at most). And
no run of positive probability reaches a missing successor.

From a solver's files to a lower bound, and to an upper bound:
  polcert lower tiger.POMDP tiger.pg tiger.alpha > tiger.lowered.alpha
  polcert check tiger.POMDP tiger.pg tiger.lowered.alpha
  polcert raise tiger.POMDP tiger.pg tiger.alpha > tiger.raised.alpha
  polcert check --at-most tiger.POMDP tiger.pg tiger.raised.alpha

polcert-mend repairs a model whose rows do not sum to one exactly.
polcert-locate shows the place of a refusal in its file, and how to mend it.
polcert-graph makes a policy graph, and its vectors, of what a solver wrote.
polcert_bound certifies an upper bound on what every policy earns.
man polcert lists the refusals; docs/REFUSALS.md explains each of them, and is
installed as PREFIX/share/doc/polcert/REFUSALS.md.

Exit status:
  0  yes, or done
  1  no, or no constant lowers or raises the vectors so that they pass
  2  a file or the command line is refused, or a model is too large to print
  3  a file cannot be read, or the output cannot be written
  4  out of memory";

/// The details of a subcommand that takes a model, a policy graph and its vectors.
macro_rules! with_three_files {
    ($rest:literal) => {
        concat!(
            "Files:
  FILE   The model, in Cassandra's .POMDP format
  PG     The policy graph (.pg), as pomdp-solve writes it
  ALPHA  The vectors of the graph's nodes (.alpha), from the same run

",
            $rest
        )
    };
}

pub const MODEL: HelpTexts<'static> = HelpTexts {
    about: "Summarize a model in one line, or report its first error",
    usage: "polcert model <FILE>",
    details: "Files:
  FILE  The model, in Cassandra's .POMDP format

Example:
  $ polcert model tiger.POMDP
  pomdp: 2 states, 3 actions, 2 observations, discount 0.95, reward

If a row does not sum to one exactly (M17), polcert-mend repairs the model.",
};

pub const PRINT: HelpTexts<'static> = HelpTexts {
    about: "Print a model in full form",
    usage: "polcert print <FILE>",
    details: "Files:
  FILE  The model, in Cassandra's .POMDP format

Equal models have the same full form, and it reads back as an equal model.

Example:
  $ polcert print tiger.POMDP > tiger.full.POMDP",
};

pub const CHECK: HelpTexts<'static> = HelpTexts {
    about: "Check that vectors are a lower bound, or with --at-most an upper bound",
    usage: "polcert check [OPTIONS] <FILE> <PG> <ALPHA>",
    details: with_three_files!(
        "A yes holds for every number of steps, from every node and every state. A no
names the first node and state that fail, and by how much.

A lower bound does not say how much more the graph may earn. With --at-most the
vectors, rounded up, are checked as an upper bound on what the graph earns: both
bounds together are an interval. Another graph may earn more. Under
`values: cost` a worth is minus a cost, so an upper bound on the worth is a
lower bound on the costs.

Example:
  $ polcert check tiger.POMDP tiger.pg tiger.alpha
  no: node 1, state 0, short by 0.000001
  $ polcert check tiger.POMDP tiger.pg tiger.lowered.alpha
  yes: start node 0, at least 19.37136
  $ polcert check --at-most tiger.POMDP tiger.pg tiger.raised.alpha
  yes: every start node, at most 19.371377"
    ),
};

pub const AT_MOST: &str = "Check that the vectors, rounded up, are an upper bound";

pub const LOWER: HelpTexts<'static> = HelpTexts {
    about: "Print the vectors, lowered just enough to pass `check`",
    usage: "polcert lower <FILE> <PG> <ALPHA>",
    details: with_three_files!(
        "Every value is lowered by the same constant, the least with which all vectors
pass. The vectors go to standard output, the constant to standard error.

Example:
  $ polcert lower tiger.POMDP tiger.pg tiger.alpha > tiger.lowered.alpha
  lowered by 0.000008"
    ),
};

pub const RAISE: HelpTexts<'static> = HelpTexts {
    about: "Print the vectors, raised just enough to pass `check --at-most`",
    usage: "polcert raise <FILE> <PG> <ALPHA>",
    details: with_three_files!(
        "Every value is raised by the same constant, the least with which all vectors
pass. The vectors go to standard output, the constant to standard error.

Example:
  $ polcert raise tiger.POMDP tiger.pg tiger.alpha > tiger.raised.alpha
  raised by 0.000009"
    ),
};
