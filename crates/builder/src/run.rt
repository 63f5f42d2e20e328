// The exchange run: from an output's row to an input, and from that input to the next row that holds it. Its two sides call each other, a form
// asked for (docs/DECISIONS.md, "Forms asked for").
ghost use Rattle.std.specs.Prelude.{◌≡◌, ◌<◌};
ghost use Rattle.answers.specs.Lowest.{found};
ghost use Rattle.tables.specs.Check.{Holds};
ghost use Rattle.builder.specs.Exchange.{input_at, holds_next, output_side, input_side, SlotsIn, RowNext};

use answers::{MAX_PORTS, first_where};
use flows::Plan;

// The input whose flow an entry names, and 0 for an empty entry: the definition of the run compares it with 0, also where the list is no good one.
pub fn input_at(plan: &Plan, flow: u8) -> usize
    ensures { result ≡ input_at plan.now.list.now flow }
{
    if flow == 0 {
        return 0;
    }
    plan.input_of(usize::from(flow))
}

// The first row not yet seen that holds the input at the slot. That the table is whole stays a clause: the two sides lend the table alone, and write it next.
fn row_holding(
    plan: &Plan,
    table: &[u8],
    slot: usize,
    input: usize,
    seen: &[bool; MAX_PORTS],
) -> Option<usize>
    requires { Holds plan.now.frame plan.now.ports table.now × (slot < plan.now.frame) }
    ensures { result ≡ found 0 plan.now.ports (holds_next plan.now.frame plan.now.list.now seen.now slot input table.now) }
{
    first_where(0..plan.ports, |row| {
        !seen[row] && input_at(plan, table[row * plan.frame + slot]) == input
    })
}

// The output side: the row exchanges its entries at the two slots, and the input that came to the first is followed.
#[cycle(input_side_output_side)]
pub fn output_side(
    plan: &Plan,
    table: &mut [u8],
    first: usize,
    second: usize,
    row: usize,
    seen: [bool; MAX_PORTS],
)
    requires { SlotsIn plan.now.frame plan.now.ports first second table.old × RowNext plan.now.ports row seen }
    ensures { table.new ≡ output_side plan.now.frame plan.now.ports plan.now.list.now first second row seen table.old }
{
    let start = row * plan.frame;
    table.swap(start + first, start + second);
    let input = input_at(plan, table[start + first]);
    if input != 0 {
        let mut seen_now = seen;
        seen_now[row] = true;
        input_side(plan, table, first, second, input, seen_now);
    }
}

// The input side: the row not yet seen that holds the input at the first slot, if there is one, exchanges in its turn.
#[cycle(input_side_output_side)]
fn input_side(
    plan: &Plan,
    table: &mut [u8],
    first: usize,
    second: usize,
    input: usize,
    seen: [bool; MAX_PORTS],
)
    requires { SlotsIn plan.now.frame plan.now.ports first second table.old }
    ensures { table.new ≡ input_side plan.now.frame plan.now.ports plan.now.list.now first second input seen table.old }
{
    if let Some(row) = row_holding(plan, table, first, input, &seen) {
        output_side(plan, table, first, second, row, seen);
    }
}
