//! Tests of what no clause says: that calls with memory at hand answer otherwise than by want of it.

mod answers;
mod asks;
mod calls;
mod data;
mod diagrams;
mod edge;
mod linking;
mod made;
mod naming;
mod refusals;
mod replays;
mod rules;
mod runs;
mod schedules;
mod shapes;
mod summaries;
mod verdicts;
mod words;

use answers::ANSWERS;
use asks::ASKS;
use calls::{BAD_WORDS, Call, answers, answers_behind};
use made::{MADE, largest_is_answered, made_diagrams_are_sound, numbers_are_the_formulas};
use refusals::{FAULTS, REFUSALS, lines_are_refused};
use replays::{REPLAYS, long_certificates_end, reductions_are_replayed};
use schedules::{SCHEDULES, long_schedules_end};
use shapes::shapes_are_told;
use std::test::Fail;
use summaries::summaries_are_read;
use verdicts::{VERDICTS, hub_is_undecided};

/// Words that are no command that is built.
static NOT_BUILT: [&str; 13] = [
    "", "reduce x", "replay x", "help", "--help", "ask", "ask 01", "make 65", "make 1", "make 02",
    "make", "make 2 2", "make x",
];

#[test]
fn calls_over_memory(rt: HostRuntime) -> Result<(), Fail> {
    let alloc = rt.alloc();
    for (i, call) in ANSWERS.iter().enumerate() {
        answers(&rt, alloc, call, "answer", i)?;
    }
    for (i, call) in VERDICTS.iter().enumerate() {
        answers(&rt, alloc, call, "verdict", i)?;
    }
    hub_is_undecided(&rt, alloc)?;
    for (i, call) in ASKS.iter().enumerate() {
        answers(&rt, alloc, call, "ask", i)?;
    }
    for (i, call) in REFUSALS.iter().enumerate() {
        answers(&rt, alloc, call, "refusal", i)?;
    }
    for (i, call) in FAULTS.iter().enumerate() {
        answers(&rt, alloc, call, "fault", i)?;
    }
    for (i, words) in NOT_BUILT.iter().enumerate() {
        let call = Call { words, ..BAD_WORDS };
        answers(&rt, alloc, &call, "words", i)?;
    }
    lines_are_refused(&rt, alloc)?;
    shapes_are_told(&rt, alloc)
}

#[test]
fn parts_behind_diagrams(rt: HostRuntime) -> Result<(), Fail> {
    let alloc = rt.alloc();
    answers_behind(&rt, alloc, &REPLAYS, "replay")?;
    long_certificates_end(&rt, alloc)?;
    summaries_are_read(&rt, alloc)?;
    reductions_are_replayed(&rt, alloc)?;
    answers_behind(&rt, alloc, &SCHEDULES, "run")?;
    long_schedules_end(&rt, alloc)
}

#[test]
fn diagrams_are_made(rt: HostRuntime) -> Result<(), Fail> {
    let alloc = rt.alloc();
    for (i, call) in MADE.iter().enumerate() {
        answers(&rt, alloc, call, "made", i)?;
    }
    numbers_are_the_formulas(&rt, alloc)?;
    made_diagrams_are_sound(&rt, alloc)?;
    largest_is_answered(&rt, alloc)
}

#[test]
fn words_runs_and_rules(rt: HostRuntime) -> Result<(), Fail> {
    let alloc = rt.alloc();
    words::words_are_read(&rt, alloc)?;
    runs::runs_go_so_far(&rt, alloc)?;
    rules::rules_are_used(&rt, alloc)
}

#[test]
fn calls_over_streams(rt: HostRuntime) -> Result<(), Fail> {
    edge::calls_end(&rt, rt.alloc())
}
