// An output's row, as a part of the table that was lent: never a copy. Both are asked for: the part, which cannot fail, and the number beside it.
ghost use Rattle.std.specs.Prelude.{◌≡◌, ◌+◌, length};
ghost use Rattle.answers.specs.Answers.{plain_answer};
ghost use Rattle.tables.specs.Row.{row_answer, row_start, row_part};

use answers::{MAX_FRAME, MAX_PORTS, Refusal, outside};

// Why an output has no row, if it has none.
#[tactic(auto, unfolding(crate::specs::Row::row_answer))]
pub fn row_answer(frame: usize, ports: usize, table: &[u8], output: usize) -> Result<(), Refusal>
    ensures { plain_answer result ≡ row_answer frame ports (length table.now) output }
{
    if outside(1, MAX_FRAME, frame) {
        return Err(Refusal::FrameOutOfRange);
    }
    if outside(1, MAX_PORTS, ports) {
        return Err(Refusal::PortsOutOfRange);
    }
    if table.len() < ports * frame {
        return Err(Refusal::TableTooShort);
    }
    if outside(1, ports, output) {
        return Err(Refusal::OutputOutOfRange);
    }
    Ok(())
}

// The row of an output: its part of the lent table, or the empty part at the table's start.
#[tactic(auto, unfolding(crate::specs::Row::row_answer), using(crate::proofs::Rows::row_within))]
pub fn row(frame: usize, ports: usize, table: &[u8], output: usize) -> &[u8]
    ensures bytes { result.now ≡ row_part frame ports table.now output }
    ensures block { result.ref_ptr.0 ≡ table.entry.ref_ptr.0 }
    ensures place { result.ref_ptr.1 ≡ table.entry.ref_ptr.1 + row_start frame ports (length table.now) output }
{
    if row_answer(frame, ports, table, output).is_err() {
        return &table[..0];
    }
    let start = (output - 1) * frame;
    &table[start..start + frame]
}
