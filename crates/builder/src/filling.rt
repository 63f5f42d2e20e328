// The filling of an empty table: flow by flow, and cell by cell. A cell goes where its output and its input have a slot free each, by the exchange between the two.
ghost use Rattle.std.specs.Prelude.{◌≡◌, ◌*◌, ◌<◌, ◌≤◌, suc, length, not};
ghost use Rattle.answers.specs.Limits.{Within};
ghost use Rattle.answers.specs.Lowest.{found};
ghost use Rattle.flows.specs.Flows.{flow_count, IsFlow};
ghost use Rattle.tables.specs.Check.{Holds};
ghost use Rattle.builder.specs.FreeSlots.{empty_at, input_used};

use crate::run::{input_at, output_side};
use answers::{MAX_PORTS, first_where};
use flows::Plan;

// A table that is being filled for a plan, and marks beside it: for each input a row of the frame, which says at each slot whether some row of the table holds a flow of that input.
// That the marks are right stands in the contracts and is no ghost field: between a write in the table and the new marks of its slots they are not.
// A slot is a plain number, so that it lies in the frame stands in the contracts too.
#[derive(Drop)]
pub struct Filling<'a> {
    pub plan: &'a Plan<'a>,
    pub table: &'a mut [u8],
    pub used: &'a mut [bool],
    ghost rows: { Holds plan.now.frame plan.now.ports table.now },
    ghost room: { plan.now.ports * plan.now.frame ≤ length used.now },
}

impl Filling<'_> {
    ghost use Rattle.builder.specs.AddCell.{MayAdd, CellAdded};
    ghost use Rattle.builder.specs.InputMarks.{Marked, Remarked};
    ghost use Rattle.builder.specs.Filling.{SameFilling, MarksRight, MayGoOn, WentOn};

    // Whether some row holds a flow of the input at the slot.
    fn input_used(&self, input: usize, slot: usize) -> bool
        requires { slot < self.now.plan.now.frame }
        ensures { let plan = self.now.plan.now in result ≡ input_used plan.frame plan.ports plan.list.now self.now.table.now input slot }
    {
        first_where(0..self.plan.ports, |row| {
            input_at(self.plan, self.table[row * self.plan.frame + slot]) == input
        })
        .is_some()
    }

    // Marks anew, for every input, whether it is used at the slot.
    #[tactic(auto, using(crate::proofs::Remarking::marked_more))]
    fn mark_slot(&mut self, slot: usize)
        requires { slot < self.old.plan.now.frame }
        ensures marked { let plan = self.old.plan.now in Remarked plan.frame plan.ports plan.list.now self.old.table.now slot self.old.used.now self.new.used.now }
        ensures table { self.new.table.now ≡ self.old.table.now }
        ensures same { SameFilling self.old self.new }
    {
        for row in 0..self.plan.ports {
            self.used[row * self.plan.frame + slot] = self.input_used(row + 1, slot);
        }
    }

    // The first slot at which the row is empty.
    fn free_of_row(&self, row: usize) -> Option<usize>
        requires { row < self.now.plan.now.ports }
        ensures { let plan = self.now.plan.now in result ≡ found 0 plan.frame (empty_at plan.frame self.now.table.now row) }
    {
        first_where(0..self.plan.frame, |slot| {
            self.table[row * self.plan.frame + slot] == 0
        })
    }

    // The first slot at which no row holds a flow of the input: the first that its marks show free.
    fn free_of_input(&self, input: usize) -> Option<usize>
        requires { MarksRight self.now × Within 1 self.now.plan.now.ports input }
        ensures { let plan = self.now.plan.now in result ≡ found 0 plan.frame (λ slot. not (input_used plan.frame plan.ports plan.list.now self.now.table.now input slot)) }
    {
        first_where(0..self.plan.frame, |slot| {
            !self.used[(input - 1) * self.plan.frame + slot]
        })
    }

    // Adds one cell of the flow, if its output and its input have a slot free each, and keeps the marks of the inputs right.
    fn add_cell(&mut self, flow: usize)
        requires { let plan = self.old.plan.now in MayAdd plan.frame plan.ports plan.list.now flow self.old.table.now × MarksRight self.old }
        ensures added { let plan = self.old.plan.now in CellAdded plan.frame plan.ports plan.list.now flow self.old.table.now self.new.table.now }
        ensures marked { let plan = self.old.plan.now in Marked plan.frame plan.ports plan.list.now self.new.table.now self.new.used.now }
        ensures same { SameFilling self.old self.new }
    {
        let row = self.plan.output_of(flow) - 1;
        let Some(first) = self.free_of_row(row) else {
            return;
        };
        let Some(second) = self.free_of_input(self.plan.input_of(flow)) else {
            return;
        };
        let seen = [false; MAX_PORTS];
        output_side(self.plan, self.table, first, second, row, seen);
        self.table[row * self.plan.frame + second] = flow as u8;
        self.mark_slot(first);
        self.mark_slot(second);
    }

    // Places all cells of one flow, those of the flows before it being placed.
    #[tactic(auto, using(crate::proofs::Progress::flow_filled))]
    fn fill_flow(&mut self, flow: usize)
        requires go_on { MayGoOn self.old flow }
        requires flow { IsFlow self.old.plan.now.list.now flow }
        ensures { WentOn self.old self.new (suc flow) 0 }
    {
        for _ in 0..self.plan.cells_of(flow) {
            self.add_cell(flow);
        }
    }

    // Places all flows in an empty table; the marks of the inputs, empty too, are kept right on the way.
    #[tactic(auto, using(crate::proofs::Progress::one_flow_more))]
    pub fn fill(&mut self)
        requires { MayGoOn self.old 1 }
        ensures { WentOn self.old self.new (suc (flow_count self.old.plan.now.list.now)) 0 }
    {
        for flow in 1..self.plan.flow_count() + 1 {
            self.fill_flow(flow);
        }
    }
}
