//! The texts of the help of `polcert_robust`.

use crate::command_line::HelpTexts;

pub const ABOUT: &str =
    "Certify in exact arithmetic what a finite-state controller is worth in every model near a text's";

pub const DETAILS: &str =
    "A probability of 0 stays 0, the discount is known, and the graph is fixed.

A model is near if each probability above 0 of T, O and the start differs from the
text's by at most X, or by at most P percent of it, and each reward by at most Y (0
if not given), and each row and the start sum to one.
X is rounded up to a whole part of the scale: 0.000001 over the number of columns.

A yes means: in every such model, for every number of steps, from every node and
every state, the expected discounted reward of these steps, plus the discounted
vector value where they end, is at least the vector's value (with --at-most: at
most). And no run of positive probability reaches a missing successor. A no names a
node and a state at which one step fails in some such model.

With --within 0 the answer is that of polcert check. man polcert lists the
refusals.

lower and raise move any vectors just enough to pass. polcert-evaluate --within
computes vectors for the worst of these models.

Exit status:
  0  yes, or done
  1  no, or no constant lowers or raises the vectors so that they pass
  2  a file or the command line is refused
  3  a file cannot be read, or the output cannot be written
  4  out of memory";

/// The details of a subcommand that takes a model, a policy graph and its vectors.
macro_rules! with_three_files {
    ($rest:literal) => {
        concat!(
            "A probability of 0 stays 0, the discount is known, and the graph is fixed.

Files:
  FILE   The model, in Cassandra's .POMDP format
  PG     The policy graph (.pg), as pomdp-solve writes it
  ALPHA  The vectors of the graph's nodes (.alpha)

",
            $rest
        )
    };
}

pub const CHECK: HelpTexts<'static> = HelpTexts {
    about: "Check that vectors are a lower bound in every model near, or with --at-most an upper bound",
    usage: "polcert_robust check <--within <X>|--percent <P>> [OPTIONS] <FILE> <PG> <ALPHA>",
    details: with_three_files!(
        "A yes holds for every number of steps, from every node and every state, in every
model near. A no names the first node and state that fail, and by how much one step
is short in the worst of these models.

Example:
  $ polcert_robust check --within 0.0000005 tiger.POMDP tiger.pg tiger.lowered.alpha
  no: node 0, state 0, short by 0.00001
  $ polcert_robust check --within 0 tiger.POMDP tiger.pg tiger.lowered.alpha
  yes: every model within 0, start node 0, at least 19.37136"
    ),
};

pub const LOWER: HelpTexts<'static> = HelpTexts {
    about: "Print the vectors, lowered just enough to pass `check`",
    usage: "polcert_robust lower <--within <X>|--percent <P>> [OPTIONS] <FILE> <PG> <ALPHA>",
    details: with_three_files!(
        "Every value is lowered by the same constant, the least with which all vectors
pass in every model near. The vectors go to standard output, the constant to
standard error.

Example:
  $ polcert_robust lower --within 0.0000005 tiger.POMDP tiger.pg tiger.alpha > near.alpha
  lowered by 0.000967"
    ),
};

pub const RAISE: HelpTexts<'static> = HelpTexts {
    about: "Print the vectors, raised just enough to pass `check --at-most`",
    usage: "polcert_robust raise <--within <X>|--percent <P>> [OPTIONS] <FILE> <PG> <ALPHA>",
    details: with_three_files!(
        "Every value is raised by the same constant, the least with which all vectors
pass in every model near. The vectors go to standard output, the constant to
standard error.

Example:
  $ polcert_robust raise --within 0.0000005 tiger.POMDP tiger.pg tiger.alpha > near.alpha
  raised by 0.000953"
    ),
};

pub const WITHIN: &str =
    "How far each probability above 0 may lie from the text's: a decimal, at most 1";

pub const PERCENT: &str =
    "How many percent of itself each probability may lie from the text's: at most 100";

pub const REWARDS_WITHIN: &str = "How far each reward may lie from the text's: at most 1000000";

pub const AT_MOST: &str = "Check that the vectors, rounded up, are an upper bound";
