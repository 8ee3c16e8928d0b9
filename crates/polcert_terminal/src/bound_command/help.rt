//! The texts of the help of `polcert_bound`.

use crate::command_line::HelpTexts;

pub const ABOUT: &str =
    "Certify in exact arithmetic an upper bound on what every policy of a POMDP earns";

pub const DETAILS: &str = "The bound is one vector for each action of the model, in the order of the
actions: the fast informed bound. A yes means: for every policy that sees the
observations alone, for every number of steps and from every state, the expected
discounted reward of these steps, plus the discounted value of the next action's
vector where they end, is at most the value of the first action's vector.

The number of a yes bounds this from the model's start: it is the greatest worth
of a vector there, rounded up. In an MDP, whose policies see the start state, it is
the mean over the start of the greatest value at each state.

Where information matters that bound is too high. Belief points sharpen it: a third
file of a check, with a value for each action at each of a list of beliefs. A yes
then bounds every policy that sees the observations alone from the start.

From a model to a bound on every policy:
  polcert-bound-vectors stock.POMDP -o bound.alpha
  polcert_bound raise stock.POMDP bound.alpha > bound.raised.alpha
  polcert_bound check stock.POMDP bound.raised.alpha
  polcert-points tiger.POMDP -o tiger
  polcert_bound check tiger.POMDP tiger.alpha tiger.points

With a yes of polcert check and a discount below 1, both numbers enclose what the
best policy is worth in the long run. man polcert lists the refusals.

Exit status:
  0  yes, or done
  1  no, or no constant raises the vectors so that they pass
  2  a file or the command line is refused
  3  a file cannot be read, or the output cannot be written
  4  out of memory";

/// The details of a subcommand that takes a model and vectors, and then what is said of a third file.
macro_rules! with_files {
    ($third:literal, $rest:literal) => {
        concat!(
            "Files:
  FILE    The model, in Cassandra's .POMDP format
  ALPHA   One vector for each action of the model (.alpha), in the order of the
          actions: the action's number, and then a value for each state
",
            $third,
            "
",
            $rest
        )
    };
}

pub const CHECK: HelpTexts<'static> = HelpTexts {
    about: "Check that the vectors, and points if given, bound what every policy earns",
    usage: "polcert_bound check <FILE> <ALPHA> [POINTS]",
    details: with_files!(
        "  POINTS  Belief points (.points), which may be left out: of each its number
          and a weight for each state, then for each action its value and for
          each observation the point that covers the belief after it, or -
",
        "A no names the first action and state that fail, or else the first point and
action, and by how much. A no at a point says that the inequality fails there, and
no more.

Under `values: cost` a worth is minus a cost, so an upper bound on the worth is a
lower bound on the costs.

Example:
  $ polcert_bound check stock.POMDP bound.alpha
  no: action 0, state 0, exceeded by 0.000001
  $ polcert_bound check stock.POMDP bound.raised.alpha
  yes: every policy, at most 68.55
  $ polcert_bound check tiger.POMDP tiger.alpha tiger.points
  yes: every policy, at most 19.37138"
    ),
};

pub const RAISE: HelpTexts<'static> = HelpTexts {
    about: "Print the vectors, or points if given, raised just enough to pass `check`",
    usage: "polcert_bound raise <FILE> <ALPHA> [POINTS]",
    details: with_files!(
        "  POINTS  Belief points (.points), which may be left out
",
        "Every value is raised by the same constant, the least with which all vectors
pass. The vectors go to standard output, the constant to standard error. With
points, these are printed in place of the vectors, raised by the least constant
with which they pass together with the raised vectors.

Example:
  $ polcert_bound raise stock.POMDP bound.alpha > bound.raised.alpha
  raised by 0.00001"
    ),
};
