// The forwarding core: a fresh start, offers and slots. The record goes in by value, and the one after the call comes back where it is
// done; the waiting counts and the sent buffer are lent. A refusal changes nothing.
#![tactic(auto)]

ghost use Rattle.std.specs.Prelude.{◌≤◌, ◌<◌, ◌≡◌, cond, length, pos, IfOk};
ghost use Rattle.answers.specs.Answers.{answer_of, plain_answer};
ghost use Rattle.answers.specs.Lowest.{found};
ghost use Rattle.answers.specs.Buffers.{written};
ghost use Rattle.tables.specs.Check.{Holds};
ghost use Rattle.forwarding.specs.Forwarding.{fresh_start_answer, offer_answer, entries_now, place_now, above_counts, slot_answer, sends, taken, served, output_byte};
ghost use Rattle.forwarding.specs.Histories.{advanced};
ghost use Rattle.forwarding.specs.AboveCounts.{AllCounted};
ghost use Rattle.forwarding.specs.Outcome.{handed};
ghost use Rattle.forwarding.specs.Promises.{FreshStarted, Offered, SlotServed};

use answers::{MAX_FLOWS, MAX_FRAME, MAX_PORTS, MAX_WAITING, Refusal, first_where, outside};

pub mod record;

// The running record: the frame and the ports that a fresh start took, and the position of the next slot.
#[repr(C)]
#[derive(Clone, Copy, Debug, PartialEq, Eq)]
pub struct Running {
    pub frame: usize,
    pub ports: usize,
    pub position: usize,
}

// The entries of a table at the record's position, one an output: the table has a row for each port, and the position is a slot of the frame.
#[derive(Clone, Copy)]
struct Column<'a> {
    running: Running,
    table: &'a [u8],
    ghost whole: { Holds running.frame running.ports table.now },
    ghost placed: { running.position < running.frame },
}

impl Running {
    // A slot's refusals, in their order; where none is due, the column that the slot serves.
    #[tactic(auto, unfolding(crate::specs::Forwarding::slot_answer))]
    fn judge_slot<'a>(
        self,
        table: &'a [u8],
        waiting: &[u16],
        sent_length: usize,
    ) -> Result<Column<'a>, Refusal>
        ensures answer { answer_of (λ _. pos 0) result ≡ slot_answer self table.now waiting.now sent_length }
        ensures column { IfOk result (λ c. (c.running ≡ self) × (c.table.now ≡ table.now)) }
    {
        if outside(1, MAX_FRAME, self.frame) {
            return Err(Refusal::FrameOutOfRange);
        }
        if outside(1, MAX_PORTS, self.ports) {
            return Err(Refusal::PortsOutOfRange);
        }
        if table.len() < self.ports * self.frame {
            return Err(Refusal::TableTooShort);
        }
        if MAX_FLOWS < waiting.len() || sent_length < self.ports {
            return Err(Refusal::CountsOrSentMissized);
        }
        if self.frame <= self.position {
            return Err(Refusal::PositionPastFrame);
        }
        let column = Column {
            running: self,
            table,
        };
        if let Some(j) = column.first_above_counts(waiting.len()) {
            return Err(Refusal::EntryAboveCounts(column.place(j) as u16));
        }
        Ok(column)
    }

    // The record after a slot: the position goes up by one, from the frame's last slot to 0.
    fn advanced(self) -> Self
        requires { self.position < self.frame }
        ensures { result ≡ advanced self }
    {
        let next = self.position + 1;
        Running {
            position: if next == self.frame { 0 } else { next },
            ..self
        }
    }
}

impl Column<'_> {
    // Where the entry of output j + 1 stands in the table.
    fn place(&self, j: usize) -> usize
        requires { j < self.now.running.ports }
        ensures { result ≡ place_now self.now.running j }
    {
        j * self.running.frame + self.running.position
    }

    // The entry of output j + 1.
    fn entry(&self, j: usize) -> u8
        requires { j < self.now.running.ports }
        ensures { result ≡ entries_now self.now.running self.now.table.now j }
    {
        self.table[self.place(j)]
    }

    // The lowest output, from 0, of which refusal 28 tells. Only the column's entries are looked at.
    fn first_above_counts(&self, counts: usize) -> Option<usize>
        ensures { result ≡ found 0 self.now.running.ports (above_counts self.now.running self.now.table.now counts) }
    {
        first_where(0..self.running.ports, |j| {
            counts < usize::from(self.entry(j))
        })
    }

    // Serves the outputs in order, each by its entry; the byte of one that sends nothing is 0.
    #[tactic(auto, unfolding(crate::specs::Forwarding::served, answers::specs::Buffers::written))]
    fn serve(&self, waiting: &mut [u16], sent: &mut [u8])
        requires counted { AllCounted self.now.running self.now.table.now waiting.old }
        requires room { self.now.running.ports ≤ length sent.old }
        ensures counts { waiting.new ≡ served self.now.running.ports (entries_now self.now.running self.now.table.now) waiting.old }
        ensures bytes { sent.new ≡ written self.now.running.ports (output_byte (entries_now self.now.running self.now.table.now) waiting.old) sent.old }
    {
        for j in 0..self.running.ports {
            sent[j] = send_cell(waiting, self.entry(j)).unwrap_or(0);
        }
    }
}

// Takes one waiting cell of the entry's flow, if the entry is a flow and a cell waits, and hands that flow back.
// An entry without a count does not come here: the slot was refused.
fn send_cell(waiting: &mut [u16], entry: u8) -> Option<u8>
    requires { entry ≤ length waiting.old }
    ensures sent { result ≡ cond (sends waiting.old entry) (Some entry) None }
    ensures left { waiting.new ≡ taken waiting.old entry }
{
    let at = usize::from(entry).checked_sub(1)?;
    waiting[at] = waiting[at].checked_sub(1)?;
    Some(entry)
}

// A fresh start's refusals, in their order.
#[tactic(auto, unfolding(crate::specs::Forwarding::fresh_start_answer))]
fn judge_fresh_start(frame: usize, ports: usize, waiting: &[u16]) -> Result<(), Refusal>
    ensures { plain_answer result ≡ fresh_start_answer frame ports waiting.now }
{
    if outside(1, MAX_FRAME, frame) {
        return Err(Refusal::FrameOutOfRange);
    }
    if outside(1, MAX_PORTS, ports) {
        return Err(Refusal::PortsOutOfRange);
    }
    if MAX_FLOWS < waiting.len() {
        return Err(Refusal::CountsOrSentMissized);
    }
    Ok(())
}

// An offer's refusals, in their order. Waiting and offered cells together can pass 16 bits.
#[tactic(auto, unfolding(crate::specs::Forwarding::offer_answer))]
fn judge_offer(waiting: &[u16], flow: usize, n: u16) -> Result<(), Refusal>
    ensures { plain_answer result ≡ offer_answer waiting.now flow n }
{
    if MAX_FLOWS < waiting.len() {
        return Err(Refusal::CountsOrSentMissized);
    }
    if outside(1, waiting.len(), flow) {
        return Err(Refusal::FlowUnknown);
    }
    if MAX_WAITING < usize::from(waiting[flow - 1]) + usize::from(n) {
        return Err(Refusal::WaitingFull);
    }
    Ok(())
}

// Makes a record of frame and ports at position 0, and sets every waiting count to 0. Where it refuses, the record that was given still stands.
#[tactic(auto, unfolding(crate::specs::Histories::step, crate::specs::Histories::outcome_of), using(answers::proofs::Outcomes::not_done))]
pub fn fresh_start(
    running: Running,
    frame: usize,
    ports: usize,
    waiting: &mut [u16],
) -> Result<Running, Refusal>
    ensures { FreshStarted running frame ports waiting.old (handed running result) waiting.new }
{
    judge_fresh_start(frame, ports, waiting)?;
    waiting.fill(0);
    Ok(Running {
        frame,
        ports,
        position: 0,
    })
}

// Adds n cells to one flow's waiting count: all or none. The record is not looked at.
#[tactic(auto, unfolding(crate::specs::Histories::step, crate::specs::Forwarding::offer_answer), using(answers::proofs::Outcomes::not_done))]
pub fn offer(waiting: &mut [u16], flow: usize, n: u16) -> Result<(), Refusal>
    ensures { Offered waiting.old flow n (plain_answer result) waiting.new }
{
    judge_offer(waiting, flow, n)?;
    waiting[flow - 1] += n;
    Ok(())
}

// Serves one slot: each output sends the cell of its entry at the position, if one waits, and the position goes on.
#[tactic(auto, unfolding(crate::specs::Histories::step, crate::specs::Histories::outcome_of, crate::specs::Histories::sent_after), using(answers::proofs::Outcomes::not_done, crate::proofs::Done::slot_done))]
pub fn slot(
    running: Running,
    table: &[u8],
    waiting: &mut [u16],
    sent: &mut [u8],
) -> Result<Running, Refusal>
    ensures { SlotServed running table.now waiting.old sent.old (handed running result) waiting.new sent.new }
{
    let column = running.judge_slot(table, waiting, sent.len())?;
    column.serve(waiting, sent);
    Ok(running.advanced())
}
