// Makes calls from a fixed sequence of numbers and prints a line for each, so that another program that makes the same calls can be compared.
// The runtime and the sequence stay two parameters: most choices need no runtime.
#![tactic(auto)]

mod buffers;
mod digest;
mod drafts;
mod edges;
mod margin_calls;
mod network_calls;
mod networks;
mod sequence;
mod switch;

use crate::drafts::Drafts;
use crate::sequence::Sequence;
use crate::switch::Switch;
use std::io;

// The rounds made.
const ROUNDS: usize = 12000;

// Makes the call of a round, one of twelve. An enum of kinds would name each three times, and this names it once.
fn call(
    rt: &impl Print,
    sequence: &mut Sequence,
    drafts: &mut Drafts,
    switch: &mut Switch,
) -> io::Result<()> {
    match sequence.pick(12) {
        0 => margin_calls::margin(rt, sequence),
        1 => margin_calls::room(rt, sequence),
        2 => margin_calls::fit(rt, sequence),
        3 => margin_calls::cells(rt, sequence),
        4 => drafts.fill_list(rt, sequence),
        5 => drafts.damage_table(rt, sequence),
        6 => drafts.plan_table(rt, sequence),
        7 => drafts.check(rt, sequence),
        8 => drafts.row(rt, sequence),
        9 => switch.fresh_start(rt, sequence),
        10 => switch.offer(rt, sequence),
        _ => switch.slot(rt, sequence, &drafts.table),
    }
}

// Makes the calls that some rounds add to their own.
fn further_calls(
    rt: &impl Print,
    round: usize,
    sequence: &mut Sequence,
    drafts: &mut Drafts,
    switch: &mut Switch,
) -> io::Result<()> {
    if round % 16 == 15 {
        drafts.write_and_read(rt, sequence)?;
    }
    if round % 4 == 1 {
        drafts.check_likely(rt, sequence)?;
        switch.slot_elsewhere(rt, sequence, &drafts.table)?;
    }
    if round % 8 == 2 {
        network_calls::cycle(rt, sequence)?;
        network_calls::run(rt, sequence)?;
        network_calls::trd(rt, sequence)?;
    }
    Ok(())
}

// Makes all rounds, over memory that keeps what the calls leave in it.
fn main(rt: HostRuntime) -> io::Result<()> {
    let mut sequence = Sequence::new();
    let mut drafts = Drafts::new();
    let mut switch = Switch::new();
    for round in 0..ROUNDS {
        call(&rt, &mut sequence, &mut drafts, &mut switch)?;
        further_calls(&rt, round, &mut sequence, &mut drafts, &mut switch)?;
    }
    Ok(())
}
