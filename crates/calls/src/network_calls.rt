// The calls for the shore network: a cycle and a run, each of a new network, and a TRD.
use crate::buffers::{front, front_mut, word};
use crate::digest::digest_of;
use crate::edges::{CYCLES, DEPTHS, TIMES};
use crate::networks::{Held, LINKS_HELD, MESSAGES_HELD};
use crate::sequence::Sequence;
use answers::Answer;
use cycles::TrdTerms;
use std::io;

// Takes a cycle into buffers that are mostly long enough. A message's ready byte says not ready, ready, or more than 1.
pub fn cycle(rt: &impl Print, sequence: &mut Sequence) -> io::Result<()> {
    let mut ready = [0u8; MESSAGES_HELD];
    let mut taken = [9u8; MESSAGES_HELD];
    let mut loads = [7777u16; LINKS_HELD];
    let held = Held::new(sequence);
    front_mut(&mut ready, held.messages).fill_with(|| sequence.pick(3) as u8);
    let network = held.lent(sequence);
    let marks = held.marks_lent(sequence);
    let bytes = sequence.pick_or(8, 12, MESSAGES_HELD);
    let words = sequence.pick_or(8, 8, LINKS_HELD);
    let answer = Answer::from(cycles::cycle(
        network,
        front(&ready, marks),
        front_mut(&mut taken, bytes),
        front_mut(&mut loads, words),
    ));
    println!(rt;
        "cycle {answer} {} {}",
        digest_of(&taken),
        digest_of(&loads)
    )
}

// Runs cycles into a buffer that is mostly long enough.
pub fn run(rt: &impl Print, sequence: &mut Sequence) -> io::Result<()> {
    let mut releases = [0u16; MESSAGES_HELD];
    let mut responses = [7777u16; MESSAGES_HELD];
    let held = Held::new(sequence);
    front_mut(&mut releases, held.messages).fill_with(|| sequence.pick(4) as u16);
    sequence.damage(&mut releases, 3, 10, |sequence| word(sequence.pick(70000)));
    let network = held.lent(sequence);
    let marks = held.marks_lent(sequence);
    let cycles = sequence.edge_or_one_to(4, &CYCLES, 10);
    let words = sequence.pick_or(8, 12, MESSAGES_HELD);
    let answer = Answer::from(cycles::run(
        network,
        front(&releases, marks),
        cycles,
        front_mut(&mut responses, words),
    ));
    println!(rt; "run {answer} {}", digest_of(&responses))
}

// Asks for a TRD.
pub fn trd(rt: &impl Print, sequence: &mut Sequence) -> io::Result<()> {
    let terms = TrdTerms {
        depth: sequence.edge(&DEPTHS),
        nodes: sequence.edge(&DEPTHS),
        sig: sequence.edge(&TIMES),
        tm: sequence.edge(&TIMES),
        sld: sequence.edge(&TIMES),
    };
    let answer = Answer::from(cycles::least_trd(terms));
    println!(rt; "trd {answer}")
}
