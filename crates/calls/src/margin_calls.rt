// The calls on plain numbers and on lists of delays, each at the edges of its ranges.
use crate::buffers::{front, front_mut, word};
use crate::edges::{BITS, CELLS, DEADLINES, DELAYS, FRAMES, LINKS, PERIODS};
use crate::sequence::Sequence;
use answers::{Answer, MAX_DELAY};
use std::io;

// The longest list of delays that is lent.
const DELAYS_LENT: usize = 300;

// Asks for a margin over links whose delays are in range, but for damage near the front and anywhere.
pub fn margin(rt: &impl Print, sequence: &mut Sequence) -> io::Result<()> {
    let mut delays = [0u16; DELAYS_LENT];
    let frame = sequence.edge(&FRAMES);
    let links = sequence.edge(&LINKS);
    front_mut(&mut delays, links).fill_with(|| sequence.one_to(MAX_DELAY) as u16);
    for places in [12, DELAYS_LENT] {
        sequence.damage(&mut delays, 3, places, |sequence| {
            word(sequence.edge(&DELAYS))
        });
    }
    let deadline = sequence.edge(&DEADLINES);
    let answer = Answer::from(margins::margin(frame, front(&delays, links), deadline));
    println!(rt; "margin {answer}")
}

// Asks for a link room.
pub fn room(rt: &impl Print, sequence: &mut Sequence) -> io::Result<()> {
    let frame = sequence.edge(&FRAMES);
    let delay = sequence.edge(&DELAYS);
    let deadline = sequence.edge(&DEADLINES);
    let answer = Answer::from(margins::room(frame, delay, deadline));
    println!(rt; "room {answer}")
}

// Asks for a period fit.
pub fn fit(rt: &impl Print, sequence: &mut Sequence) -> io::Result<()> {
    let frame = sequence.edge(&FRAMES);
    let period = sequence.edge(&PERIODS);
    let cells = sequence.edge(&CELLS);
    let answer = Answer::from(margins::fit(frame, period, cells));
    println!(rt; "fit {answer}")
}

// Asks for the cells of a message.
pub fn cells(rt: &impl Print, sequence: &mut Sequence) -> io::Result<()> {
    let answer = Answer::from(margins::cells(sequence.edge(&BITS)));
    println!(rt; "cells {answer}")
}
