//! Makes one call of polcert after some other allocations: so each allocation of the call can be refused in turn, by one
//! number of `rt try --fail-alloc` and one build. The words are the call's name and how many allocations come before it; the
//! line that is printed is `done`, `memory` (and for what: `memory model`), or `wrong`.
#![tactic(auto)]

mod answers;
mod bounds;
mod ended;
mod nearby;
mod reading;
mod texts;

use ended::Ended;
use std::alloc::{AllocError, Global};
use std::env;
use std::process::ExitCode;
use std::rt::Env;

/// Allocates this many times, and gives it all back.
fn allocate(alloc: Global, times: usize) -> Result<(), AllocError> {
    for _ in 0..times {
        Box::new(alloc, 0u8)?;
    }
    Ok(())
}

/// How the call of this name ends; none has another name.
fn call(alloc: Global, name: &str) -> Option<Ended> {
    match name {
        "reading_a_source" => Some(reading::source(alloc)),
        "reading_a_model" => Some(reading::model(alloc)),
        "filling_tables" => Some(reading::tables(alloc)),
        "reading_a_graph" => Some(reading::graph(alloc)),
        "reading_a_graph_from" => Some(reading::graph_from(alloc)),
        "reading_vectors" => Some(reading::vectors(alloc)),
        "reading_vectors_from" => Some(reading::vectors_from(alloc)),
        "reading_vectors_up" => Some(reading::vectors_up(alloc)),
        "reading_action_vectors" => Some(reading::action_vectors(alloc)),
        "reading_action_vectors_from" => Some(reading::action_vectors_from(alloc)),
        "reading_points" => Some(reading::points(alloc)),
        "reading_points_from" => Some(reading::points_from(alloc)),
        "shifting_vectors" => Some(reading::shifting(alloc)),
        "lowering_vectors" => Some(reading::lowering(alloc)),
        "raising_vectors" => Some(reading::raising(alloc)),
        "answering_three_texts" => Some(answers::three_texts(alloc)),
        "answering_three_texts_from_above" => Some(answers::three_texts_from_above(alloc)),
        "answering_a_bound" => Some(bounds::two_texts(alloc)),
        "checking_a_bound" => Some(bounds::checking(alloc)),
        "answering_points" => Some(bounds::points(alloc)),
        "checking_points" => Some(bounds::checking_points(alloc)),
        "raising_a_bound" => Some(bounds::raising(alloc)),
        "raising_points" => Some(bounds::raising_points(alloc)),
        "summing_up" => Some(answers::summing_up(alloc)),
        "summing_up_an_mdp" => Some(answers::summing_up_an_mdp(alloc)),
        "printing" => Some(answers::printing(alloc)),
        "printing_an_mdp" => Some(answers::printing_an_mdp(alloc)),
        "checking" => Some(answers::checking(alloc)),
        "checking_a_lack" => Some(answers::checking_a_lack(alloc)),
        "checking_from_above" => Some(answers::checking_from_above(alloc)),
        "checking_a_lack_from_above" => Some(answers::checking_a_lack_from_above(alloc)),
        "lowering" => Some(answers::lowering(alloc)),
        "raising" => Some(answers::raising(alloc)),
        "lowering_nearby" => Some(nearby::lowering(alloc)),
        "raising_nearby" => Some(nearby::raising(alloc)),
        _ => None,
    }
}

/// Makes the call that the words of the command line name; none if they name none.
fn run<R: Env + AllocGlobal>(rt: &R) -> Option<Ended> {
    let words = env::args(rt).ok()?.collect::<Vec<String>>(rt.alloc()).ok()?;
    let name = words.get(1)?;
    let before = words.get(2)?.parse::<usize>().ok()?;
    allocate(rt.alloc(), before).ok()?;
    call(rt.alloc(), name)
}

fn main(rt: HostRuntime) -> ExitCode {
    let line = match run(&rt) {
        Some(ended) => ended.line(),
        None => "no call",
    };
    match println!(rt; "{line}") {
        Ok(()) => ExitCode::SUCCESS,
        Err(_) => ExitCode::FAILURE,
    }
}
