// The check: a table is accepted for a plan exactly where this gives no refusal.
ghost use Rattle.std.specs.Prelude.{◌≡◌, ◌+◌, ◌*◌, ◌<◌, ◌≤◌, length};
ghost use Rattle.answers.specs.Answers.{plain_answer};
ghost use Rattle.answers.specs.Limits.{max_flows};
ghost use Rattle.answers.specs.Lowest.{found, holds_somewhere};
ghost use Rattle.flows.specs.Flows.{flow_count};
ghost use Rattle.tables.specs.Accepted.{entry};
ghost use Rattle.tables.specs.Check.{no_flow_of, not_of_row, share_input, input_twice, count_wrong, check_answer, entries_answer, Holds, Counted};

use answers::{Refusal, first_where, outside};
use flows::Plan;

// What stands in a row at a slot.
pub fn entry_at(frame: usize, table: &[u8], row: usize, slot: usize) -> usize
    requires { row * frame + slot < length table.now }
    ensures { result ≡ entry frame table.now row slot }
{
    usize::from(table[row * frame + slot])
}

// A plan and a table with a row for each of its ports, where frame and ports are in range and there are not too many flows.
#[derive(Clone, Copy)]
struct Whole<'a> {
    plan: Plan<'a>,
    table: &'a [u8],
    ghost holds: { Holds plan.frame plan.ports table.now },
    ghost few_flows: { flow_count plan.list.now ≤ max_flows },
}

impl Whole<'_> {
    // Whether a number is not that of a flow for that output.
    fn no_flow_of(&self, output: usize, number: usize) -> bool
        ensures { result ≡ no_flow_of self.now.plan.list.now output number }
    {
        outside(1, self.plan.flow_count(), number) || !self.plan.goes_to(number, output)
    }

    // How many places the rows of all ports take.
    fn places(&self) -> usize
        ensures { result ≡ self.now.plan.ports * self.now.plan.frame }
    {
        self.plan.ports * self.plan.frame
    }

    // Refusal 8 at one place.
    fn not_of_row(&self, place: usize) -> bool
        requires { place < length self.now.table.now }
        ensures { result ≡ not_of_row self.now.plan.frame self.now.plan.list.now self.now.table.now place }
    {
        let number = usize::from(self.table[place]);
        number != 0 && self.no_flow_of(place / self.plan.frame + 1, number)
    }

    // The lowest place that refusal 8 names.
    fn first_not_of_row(&self) -> Option<usize>
        ensures { result ≡ found 0 (self.now.plan.ports * self.now.plan.frame) (not_of_row self.now.plan.frame self.now.plan.list.now self.now.table.now) }
    {
        first_where(0..self.places(), |place| self.not_of_row(place))
    }

    // Whether two rows hold flows of one input at a slot. That the slot is one of the frame's stays a clause: a slot is a plain number.
    fn share_input(&self, slot: usize, a: usize, b: usize) -> bool
        requires { (slot < self.now.plan.frame) × (a < self.now.plan.ports) × (b < self.now.plan.ports) }
        ensures { result ≡ share_input self.now.plan.frame self.now.plan.list.now self.now.table.now slot a b }
    {
        let first = entry_at(self.plan.frame, self.table, a, slot);
        let second = entry_at(self.plan.frame, self.table, b, slot);
        first != 0 && second != 0 && self.plan.input_of(first) == self.plan.input_of(second)
    }

    // Whether some earlier row holds a flow of the same input as this row at a slot.
    fn meets_earlier(&self, slot: usize, row: usize) -> bool
        requires { (slot < self.now.plan.frame) × (row < self.now.plan.ports) }
        ensures { result ≡ holds_somewhere 0 row (λ a. share_input self.now.plan.frame self.now.plan.list.now self.now.table.now slot a row) }
    {
        first_where(0..row, |earlier| self.share_input(slot, earlier, row)).is_some()
    }

    // Refusal 9 at one slot.
    fn input_twice(&self, slot: usize) -> bool
        requires { slot < self.now.plan.frame }
        ensures { result ≡ input_twice self.now.plan.frame self.now.plan.ports self.now.plan.list.now self.now.table.now slot }
    {
        first_where(0..self.plan.ports, |row| self.meets_earlier(slot, row)).is_some()
    }

    // The lowest slot that refusal 9 names.
    fn first_input_twice(&self) -> Option<usize>
        ensures { result ≡ found 0 self.now.plan.frame (input_twice self.now.plan.frame self.now.plan.ports self.now.plan.list.now self.now.table.now) }
    {
        first_where(0..self.plan.frame, |slot| self.input_twice(slot))
    }

    // How many times each number stands in the table, in one pass.
    fn count_entries(&self) -> [u32; 256]
        ensures { Counted self.now.table.now (self.now.plan.ports * self.now.plan.frame) result }
    {
        let mut counts = [0; 256];
        for &entry in &self.table[..self.places()] {
            counts[usize::from(entry)] += 1;
        }
        counts
    }

    // The lowest flow that refusal 10 names.
    #[tactic(auto, using(crate::proofs::Counts::count_is_times))]
    fn first_count_wrong(&self) -> Option<usize>
        ensures { result ≡ found 1 (flow_count self.now.plan.list.now) (count_wrong self.now.plan.frame self.now.plan.ports self.now.plan.list.now self.now.table.now) }
    {
        let counts = self.count_entries();
        first_where(1..self.plan.flow_count() + 1, |flow| {
            counts[flow] as usize != self.plan.cells_of(flow)
        })
    }

    // Refusals 8, 9 and 10.
    #[tactic(auto, unfolding(crate::specs::Check::entries_answer))]
    fn judge(&self) -> Result<(), Refusal>
        ensures { plain_answer result ≡ entries_answer self.now.plan.frame self.now.plan.ports self.now.plan.list.now self.now.table.now }
    {
        if let Some(place) = self.first_not_of_row() {
            return Err(Refusal::EntryNotOfRow(place as u16));
        }
        if let Some(slot) = self.first_input_twice() {
            return Err(Refusal::InputTwiceInSlot(slot as u16));
        }
        if let Some(flow) = self.first_count_wrong() {
            return Err(Refusal::CountWrong(flow as u16));
        }
        Ok(())
    }
}

// Whether a table is accepted for a plan, and if not, why.
#[tactic(auto, unfolding(flows::specs::Flows::list_answer, crate::specs::Check::entries_answer, crate::specs::Check::check_answer), using(flows::proofs::Shape::in_range))]
pub fn check(plan: &Plan, table: &[u8]) -> Result<(), Refusal>
    ensures { plain_answer result ≡ check_answer plan.now.frame plan.now.ports plan.now.list.now table.now }
{
    plan.judge()?;
    if table.len() < plan.ports * plan.frame {
        return Err(Refusal::TableTooShort);
    }
    Whole { plan: *plan, table }.judge()
}
