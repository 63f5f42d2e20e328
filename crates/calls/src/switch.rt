// The calls of the forwarding core.
use crate::buffers::{front, front_mut, word};
use crate::digest::digest_of;
use crate::drafts::TABLE;
use crate::edges::{COUNTS, OFFERS};
use crate::sequence::Sequence;
use answers::Answer;
use forwarding::Running;
use forwarding::record::{fresh_start_in, slot_in};
use std::{fmt, io};

const WAITING: usize = 260;

const SENT: usize = 40;

// What lasts between the calls: the running record, the waiting counts and the bytes sent.
#[derive(Drop)]
pub struct Switch {
    running: Running,
    waiting: [u16; WAITING],
    sent: [u8; SENT],
}

// A running record, printed as its three numbers with commas between them; the core itself prints nothing.
#[derive(Drop)]
struct Record(Running);

impl fmt::Display for Record {
    fn fmt<W: fmt::Write>(&self, f: &mut fmt::Formatter<W>) -> fmt::Result {
        let Running {
            frame,
            ports,
            position,
        } = self.0;
        write!(f, "{frame},{ports},{position}")
    }
}

impl Switch {
    // A switch before any start.
    pub fn new() -> Switch {
        Switch {
            running: Running {
                frame: 0,
                ports: 0,
                position: 0,
            },
            waiting: [0; WAITING],
            sent: [0; SENT],
        }
    }

    // Starts the switch afresh.
    pub fn fresh_start(&mut self, rt: &impl Print, sequence: &mut Sequence) -> io::Result<()> {
        let frame = sequence.frame();
        let ports = sequence.ports();
        let counts = front_mut(&mut self.waiting, sequence.edge(&COUNTS));
        let answer = Answer::from(fresh_start_in(&mut self.running, frame, ports, counts));
        println!(rt;
            "start {answer} {} {}",
            Record(self.running),
            digest_of(&self.waiting)
        )
    }

    // Offers cells of a flow: one time in four a number of them at the edges, else up to 3.
    pub fn offer(&mut self, rt: &impl Print, sequence: &mut Sequence) -> io::Result<()> {
        let counts = front_mut(&mut self.waiting, sequence.counts_lent(4));
        let flow = sequence.pick(12);
        let cells = if sequence.one_in(4) {
            sequence.edge(&OFFERS)
        } else {
            sequence.pick(4)
        };
        let answer = Answer::from(forwarding::offer(counts, flow, word(cells)));
        println!(rt; "offer {answer} {}", digest_of(&self.waiting))
    }

    // The line of a slot, which two calls print.
    fn print_slot(
        &self,
        rt: &impl Print,
        name: &str,
        answer: Answer,
        running: Running,
    ) -> io::Result<()> {
        let waiting = digest_of(&self.waiting);
        let sent = digest_of(&self.sent);
        println!(rt; "{name} {answer} {} {waiting} {sent}", Record(running))
    }

    // Serves a slot.
    pub fn slot(
        &mut self,
        rt: &impl Print,
        sequence: &mut Sequence,
        table: &[u8; TABLE],
    ) -> io::Result<()> {
        let counts = front_mut(&mut self.waiting, sequence.counts_lent(8));
        let entries = front(table, sequence.some_or_all(8, TABLE));
        let room = front_mut(&mut self.sent, sequence.some_or_all(8, SENT));
        let answer = Answer::from(slot_in(&mut self.running, entries, counts, room));
        self.print_slot(rt, "slot", answer, self.running)
    }

    // Serves a slot of a record of its own, which need not be one that a fresh start makes.
    pub fn slot_elsewhere(
        &mut self,
        rt: &impl Print,
        sequence: &mut Sequence,
        table: &[u8; TABLE],
    ) -> io::Result<()> {
        let mut other = Running {
            frame: sequence.frame(),
            ports: sequence.ports(),
            position: sequence.pick(5),
        };
        let counts = front_mut(&mut self.waiting, 10);
        let answer = Answer::from(slot_in(&mut other, table, counts, &mut self.sent));
        self.print_slot(rt, "other", answer, other)
    }
}
