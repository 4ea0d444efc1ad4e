// Calls the open operations on lent memory, for the time that they take: bench/run writes the files and holds the clock. Each byte of
// the file `calls` is a call: F files `problem.bin`, C checks `steps.bin`, S takes a step, and any other takes it back. All of them
// are made in turn, a thousand times.
#![tactic(auto)]

use calculus::{Mode, Rule};
use example::answer::Said;
use example::state::State;
use files::read_file;
use std::io;
use step::Move;

// Takes a step, the SUM of x1 and 1: a line comes or goes.
fn step(state: &mut State, amount: i64) -> Said {
    let asked = Move {
        rule: Rule::Sum,
        mode: Mode::Signed,
        amount,
    };
    state.step(asked, &[1], &[0])
}

// One call.
fn call(state: &mut State, kind: u8, problem: &[u8], steps: &[u8]) -> Said {
    match kind {
        b'F' => state.file(problem),
        b'C' => state.check(steps),
        b'S' => step(state, 1),
        _ => step(state, -1),
    }
}

// All calls in turn, a thousand times: what the last one said.
fn call_again(calls: &[u8], problem: &[u8], steps: &[u8]) -> Said {
    let mut state = State::NONE;
    let mut said = Said::Accepted;
    for _ in 0..1000 {
        for &kind in calls {
            said = call(&mut state, kind, problem, steps);
        }
    }
    said
}

fn main(rt: HostRuntime) -> io::Result<()> {
    let mut problem = [0u8; 8192];
    let mut steps = [0u8; 8192];
    let mut calls = [0u8; 1024];
    let size = read_file(&rt, b"problem.bin", &mut problem);
    let count = read_file(&rt, b"steps.bin", &mut steps);
    let many = read_file(&rt, b"calls", &mut calls);
    let said = call_again(&calls[..many], &problem[..size], &steps[..count]);
    println!(rt; "{said}")
}
