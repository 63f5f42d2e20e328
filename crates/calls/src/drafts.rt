// The calls of the planner's crates: fills of the list, of the table and of the text, and what reads them.

use crate::buffers::{front, front_mut, word};
use crate::digest::digest_of;
use crate::sequence::Sequence;
use answers::Answer;
use flows::Plan;
use std::io;

const LIST: usize = 800;

pub const TABLE: usize = 2600;

const TEXT: usize = 9000;

// The numbers of eight flows, of which a digest is shown.
const LIST_SHOWN: usize = 24;

// The front of the text, where all is written and read.
const TEXT_SHOWN: usize = 200;

// What lasts between the calls: the list, the table and the text.
#[derive(Drop)]
pub struct Drafts {
    list: [u16; LIST],
    pub table: [u8; TABLE],
    text: [u8; TEXT],
}

// An entry that is mostly its row's flow, else 0, now and then any small number.
fn likely_entry(sequence: &mut Sequence, flow: u8) -> u8 {
    match sequence.pick(8) {
        0..=4 => flow,
        5 | 6 => 0,
        _ => sequence.pick(4) as u8,
    }
}

impl Drafts {
    // All numbers 0.
    pub fn new() -> Drafts {
        Drafts {
            list: [0; LIST],
            table: [0; TABLE],
            text: [0; TEXT],
        }
    }

    // The digest of the list's flows.
    fn list_digest(&self) -> u32 {
        digest_of(&self.list[..LIST_SHOWN])
    }

    // Fills the list with flows that are mostly in range.
    pub fn fill_list(&mut self, rt: &impl Print, sequence: &mut Sequence) -> io::Result<()> {
        let flows = sequence.pick(9);
        let frame = sequence.one_to(8);
        let ports = sequence.one_to(4);
        let (list, _) = self.list.as_chunks_mut();
        for flow in front_mut(list, flows) {
            let input = sequence.one_to(ports) as u16;
            let output = sequence.one_to(ports) as u16;
            *flow = [input, output, sequence.one_to(frame) as u16];
        }
        sequence.damage(&mut self.list, 8, LIST_SHOWN, |sequence| {
            word(sequence.pick(70000))
        });
        println!(rt; "list {}", self.list_digest())
    }

    // Puts any byte anywhere into the table.
    pub fn damage_table(&mut self, rt: &impl Print, sequence: &mut Sequence) -> io::Result<()> {
        let place = sequence.pick(TABLE);
        self.table[place] = sequence.pick(256) as u8;
        println!(rt; "damage {}", digest_of(&self.table))
    }

    // Plans the front of the table anew: an entry is 0 one time in three, else a flow.
    pub fn plan_table(&mut self, rt: &impl Print, sequence: &mut Sequence) -> io::Result<()> {
        let frame = sequence.one_to(8);
        let ports = sequence.one_to(4);
        front_mut(&mut self.table, ports * frame).fill_with(|| {
            if sequence.one_in(3) {
                0
            } else {
                sequence.one_to(8) as u8
            }
        });
        println!(rt; "plan {}", digest_of(front(&self.table, 40)))
    }

    // Checks the table for the list.
    pub fn check(&self, rt: &impl Print, sequence: &mut Sequence) -> io::Result<()> {
        let frame = sequence.frame();
        let ports = sequence.ports();
        let list = front(&self.list, sequence.numbers_lent());
        let table = front(&self.table, sequence.some_or_all(4, TABLE));
        let answer = Answer::from(tables::check::check(&Plan { frame, ports, list }, table));
        println!(rt;
            "check {answer} {} {}",
            self.list_digest(),
            digest_of(&self.table)
        )
    }

    // Asks for an output's row.
    pub fn row(&self, rt: &impl Print, sequence: &mut Sequence) -> io::Result<()> {
        let frame = sequence.frame();
        let ports = sequence.ports();
        let table = front(&self.table, sequence.some_or_all(4, TABLE));
        let output = sequence.pick(6);
        let answer = Answer::from(tables::row::row_answer(frame, ports, table, output));
        let row = tables::row::row(frame, ports, table, output);
        println!(rt; "row {answer} {} {}", row.len(), digest_of(row))
    }

    // Fills a list of two flows, from one of two inputs to the output of its own number, and a table that is likely theirs,
    // so that the check also says done and names a slot.
    pub fn check_likely(&mut self, rt: &impl Print, sequence: &mut Sequence) -> io::Result<()> {
        let frame = sequence.one_to(3);
        let (list, _) = self.list.as_chunks_mut();
        let flows = front_mut(list, 2);
        for (flow, output) in flows.iter_mut().zip(1..) {
            let input = sequence.one_to(2) as u16;
            *flow = [input, output, sequence.one_to(frame) as u16];
        }
        let table = &mut self.table[..];
        table[..frame].fill_with(|| likely_entry(sequence, 1));
        table[frame..2 * frame].fill_with(|| likely_entry(sequence, 2));
        let plan = Plan {
            frame,
            ports: 2,
            list: flows.as_flattened(),
        };
        let answer = Answer::from(tables::check::check(&plan, &self.table));
        println!(rt; "accept {answer}")
    }

    // Writes the list as a plan text, and says how much of it is to be read: what was written, or any part.
    fn write(&mut self, rt: &impl Print, sequence: &mut Sequence) -> io::Result<usize> {
        let frame = sequence.frame();
        let ports = sequence.ports();
        let list = front(&self.list, sequence.numbers_lent());
        let room = front_mut(&mut self.text, sequence.pick(TEXT_SHOWN));
        let written = plan_text::writing::write(&Plan { frame, ports, list }, room);
        println!(rt;
            "write {} {}",
            Answer::from(written),
            digest_of(front(&self.text, TEXT_SHOWN))
        )?;
        Ok(written.map_or_else(|_| sequence.pick(TEXT_SHOWN), usize::from))
    }

    // Reads the first bytes of the text, spoiled or not, into the front of the list.
    fn read(&mut self, rt: &impl Print, sequence: &mut Sequence, bytes: usize) -> io::Result<()> {
        sequence.damage(&mut self.text, 4, TEXT_SHOWN, |sequence| {
            sequence.pick(256) as u8
        });
        let room = front_mut(&mut self.list, sequence.pick(LIST_SHOWN + 1));
        let heading = plan_text::reading::read(front(&self.text, bytes), room);
        let (frame, ports) = heading.map_or((0, 0), |heading| (heading.frame, heading.ports));
        println!(rt;
            "read {} {frame},{ports} {}",
            Answer::from(heading),
            self.list_digest()
        )
    }

    // Writes the list as a plan text, and reads it back in part.
    pub fn write_and_read(&mut self, rt: &impl Print, sequence: &mut Sequence) -> io::Result<()> {
        let bytes = self.write(rt, sequence)?;
        self.read(rt, sequence, bytes)
    }
}
