// The running record lent and changed in place: each function hands the record to the core by value, and stores what comes back. A refusal leaves it as it was.
// The rules' functions have both forms (docs/PROMISES.md names them), so both stand.
ghost use Rattle.answers.specs.Answers.{plain_answer};
ghost use Rattle.forwarding.specs.Outcome.{outcome};
ghost use Rattle.forwarding.specs.Promises.{FreshStarted, SlotServed};

use crate::Running;
use answers::Refusal;

// A fresh start of the lent record.
pub fn fresh_start_in(
    running: &mut Running,
    frame: usize,
    ports: usize,
    waiting: &mut [u16],
) -> Result<(), Refusal>
    ensures { FreshStarted running.old frame ports waiting.old (outcome (plain_answer result) running.new) waiting.new }
{
    *running = crate::fresh_start(*running, frame, ports, waiting)?;
    Ok(())
}

// A slot of the lent record.
pub fn slot_in(
    running: &mut Running,
    table: &[u8],
    waiting: &mut [u16],
    sent: &mut [u8],
) -> Result<(), Refusal>
    ensures { SlotServed running.old table.now waiting.old sent.old (outcome (plain_answer result) running.new) waiting.new sent.new }
{
    *running = crate::slot(*running, table, waiting, sent)?;
    Ok(())
}
