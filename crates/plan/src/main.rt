// The planner: a plan text on standard input, its answer and its table on standard output.
#![tactic(auto)]

mod respond;

ghost use Rattle.std.specs.Prelude.{◌<◌, ◌≤◌, length, take, IfOk};
ghost use Rattle.std.specs.Io.{ReadsAtMost};
ghost use Rattle.std.specs.Io.KnownBytes.{Consumes, IsAtEnd};
ghost use Rattle.answers.specs.Limits.{max_frame, max_ports};

use answers::{Answer, MAX_FRAME, MAX_PORTS, MAX_TEXT};
use plan_text::reading::Heading;
use plan_text::writer::Writer;
use std::io;
use std::io::Read;

// Room for the longest line of an answer: the key, two numbers of 32 bits, a sign, a comma and the line's end.
const ANSWER_ROOM: usize = 32;

// Room for the longest line of a row: the key, three digits and a comma for each entry, and the line's end.
const ROW_ROOM: usize = 4 * MAX_FRAME + 5;

// Reads until the buffer is full or the input ends, and hands back how many bytes it put at the buffer's start. A loop over `read`, since
// `read_exact` and `read_to_end` say little of what was read before the input ended.
fn read_full<R: Read>(input: &mut R, bytes: &mut [u8]) -> io::Result<usize>
    ensures within { ReadsAtMost result bytes.new }
    ensures read { IfOk result (λ n. Consumes (R.remaining input.old) (R.remaining input.new) (take n bytes.new)) }
    ensures whole { IfOk result (λ n. n < length bytes.new → IsAtEnd (R.remaining input.new)) }
{
    let mut done = 0;
    while done < bytes.len() {
        let n = input.read(&mut bytes[done..])?;
        if n == 0 {
            return Ok(done);
        }
        done += n;
    }
    Ok(done)
}

// Prints the line of an answer. A `Writer` emits the fixed key, a form asked for, and its promise says every byte; what a `Display` writes reaches
// a clause only through a `String`.
fn print_answer(rt: &impl Print, answer: Answer) -> io::Result<()> {
    let mut line = [0u8; ANSWER_ROOM];
    let mut writer = Writer::new(&mut line);
    writer.put_answer(answer);
    rt.write_all(writer.written())
}

// Prints the line of an output's row, by a `Writer` too.
fn print_row(rt: &impl Print, heading: Heading, table: &[u8], output: usize) -> io::Result<()>
    requires { heading.frame ≤ max_frame }
{
    let row = tables::row::row(heading.frame, heading.ports, table, output);
    let mut line = [0u8; ROW_ROOM];
    let mut writer = Writer::new(&mut line);
    writer.put_row(row);
    rt.write_all(writer.written())
}

// Prints a line for each output.
fn print_table(rt: &impl Print, heading: Heading, table: &[u8]) -> io::Result<()>
    requires { (heading.frame ≤ max_frame) × (heading.ports ≤ max_ports) }
{
    for output in 1..heading.ports + 1 {
        print_row(rt, heading, table, output)?;
    }
    Ok(())
}

fn main(rt: HostRuntime) -> io::Result<()> {
    let mut text = [0u8; MAX_TEXT + 1];
    let n = read_full(&mut rt.stdin(), &mut text)?;
    let mut table = [0u8; MAX_PORTS * MAX_FRAME];
    let planned = respond::respond(&text[..n], &mut table);
    print_answer(&rt, planned.map(|_| ()).into())?;
    if let Ok(heading) = planned {
        print_table(&rt, heading, &table)?;
    }
    Ok(())
}
