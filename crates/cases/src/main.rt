// Runs cases of the documents: those that are not proved of the definitions, the limits of the frame, of the links and of the shore network, and entries
// without a count. Prints a line for each: what was asked, number, comma, detail; or what was lent, and the number in it.
#![tactic(auto)]

use answers::{Answer, Given, MAX_CYCLE_LINKS, MAX_FRAME, MAX_MESSAGES, MAX_PORTS, Refusal};
use cycles::Network;
use flows::Plan;
use forwarding::Running;
use forwarding::record::slot_in;
use std::fmt::Display;
use std::io;

// Prints the line of an answer.
fn print_answer<T: Given>(
    rt: &impl Print,
    case: impl Display + Drop,
    outcome: Result<T, Refusal>,
) -> io::Result<()> {
    println!(rt; "{case}: {}", Answer::from(outcome))
}

// Messages on both sides of a cell's end, and one of three cells.
fn cells_of_messages(rt: &impl Print) -> io::Result<()> {
    for bits in [480, 481, 1000] {
        print_answer(
            rt,
            format_args!("cells of {bits} bits"),
            margins::cells(bits),
        )?;
    }
    Ok(())
}

// Checks a table for a list of one flow, from input 1 to output 1, of one cell.
fn check(frame: usize, ports: usize, table: &[u8]) -> Result<(), Refusal> {
    let plan = Plan {
        frame,
        ports,
        list: &[1; 3],
    };
    tables::check::check(&plan, table)
}

// Frames out of range and at the limit.
fn frames_at_their_limits(rt: &impl Print) -> io::Result<()> {
    print_answer(rt, "check with frame 0 and ports 0", check(0, 0, &[0; 1]))?;
    for (frame, deadline) in [(0, 0), (2048, 2047), (2049, 2047)] {
        print_answer(
            rt,
            format_args!("margin in frame {frame}"),
            margins::margin(frame, &[], deadline),
        )?;
    }
    Ok(())
}

// The lowest margin that there is, then the last delay one slot too long for it, and one link too many.
fn links_at_their_limits(rt: &impl Print) -> io::Result<()> {
    let mut delays = [40; 255];
    print_answer(
        rt,
        "margin over 255 links of 40 slots",
        margins::margin(2048, &delays, 0),
    )?;
    delays[254] = 41;
    print_answer(
        rt,
        "then with 41 slots for the last",
        margins::margin(2048, &delays, 0),
    )?;
    print_answer(
        rt,
        "margin over 256 links of 40 slots",
        margins::margin(2048, &[40; 256], 0),
    )
}

// A whole table of 65,536 bytes, whose one flow stands in the first slot.
fn tables_at_their_limits(rt: &impl Print) -> io::Result<()> {
    let mut table = [0; MAX_PORTS * MAX_FRAME];
    table[0] = 1;
    for frame in [2048, 2049] {
        print_answer(
            rt,
            format_args!("check of 32 rows in frame {frame}"),
            check(frame, 32, &table),
        )?;
    }
    Ok(())
}

// The last cell that may wait, one too many, and none.
fn offers_at_the_limit(rt: &impl Print) -> io::Result<()> {
    let mut waiting = [3999; 1];
    print_answer(
        rt,
        "waiting 3999, offer 1",
        forwarding::offer(&mut waiting, 1, 1),
    )?;
    print_answer(rt, "then offer 1", forwarding::offer(&mut waiting, 1, 1))?;
    print_answer(rt, "then offer 0", forwarding::offer(&mut waiting, 1, 0))
}

// Frame 2, ports 2, and flow 2 in output 2's last slot, which is place 3 of the table.
fn slot_at(rt: &impl Print, case: &str, position: usize, waiting: &mut [u16]) -> io::Result<()> {
    let mut running = Running {
        frame: 2,
        ports: 2,
        position,
    };
    let answer = slot_in(&mut running, &[0, 0, 0, 2], waiting, &mut [0; 2]);
    print_answer(rt, case, answer)
}

// A slot whose entry is above the counts, one that has no such entry, and enough counts.
fn entries_without_a_count(rt: &impl Print) -> io::Result<()> {
    let mut one = [1; 1];
    slot_at(rt, "slot 1 with one count", 1, &mut one)?;
    slot_at(rt, "slot 0 with one count", 0, &mut one)?;
    slot_at(rt, "slot 1 with two counts", 1, &mut [1; 2])
}

// The largest entry in the last place of the largest table.
fn last_slot(rt: &impl Print, waiting: &mut [u16]) -> io::Result<()> {
    let mut table = [0; MAX_PORTS * MAX_FRAME];
    table[65535] = 255;
    let mut running = Running {
        frame: 2048,
        ports: 32,
        position: 2047,
    };
    let answer = slot_in(&mut running, &table, waiting, &mut [0; MAX_PORTS]);
    print_answer(
        rt,
        format_args!("slot 2047 of 32 rows with {} counts", waiting.len()),
        answer,
    )
}

// One count too few, and as many as there can be.
fn slots_at_their_limits(rt: &impl Print) -> io::Result<()> {
    last_slot(rt, &mut [1; 254])?;
    last_slot(rt, &mut [1; 255])
}

// 64 messages over all of 32 links: 63 of them fill 64,512 slots of the largest window, and the last would make 65,536.
fn largest_cycle(rt: &impl Print) -> io::Result<()> {
    let network = Network {
        windows: &[65535; MAX_CYCLE_LINKS],
        sizes: &[1024; MAX_MESSAGES],
        paths: &[4294967295; MAX_MESSAGES],
    };
    let mut taken = [0; MAX_MESSAGES];
    let mut loads = [0; MAX_CYCLE_LINKS];
    let answer = cycles::cycle(network, &[1; MAX_MESSAGES], &mut taken, &mut loads);
    print_answer(rt, "cycle of 64 messages over 32 links", answer)?;
    println!(rt; "message 62 is taken: {}", taken[62])?;
    println!(rt; "message 63 is taken: {}", taken[63])?;
    println!(rt; "load of link 31: {}", loads[31])
}

// One message too many, and one link too many.
fn cycles_past_the_limits(rt: &impl Print) -> io::Result<()> {
    let (windows, sizes, paths, ready) = ([65535; 33], [1; 65], [1; 65], [1; 65]);
    let mut taken = [0; 65];
    let mut loads = [0; 33];
    let messages = Network {
        windows: &windows[..1],
        sizes: &sizes,
        paths: &paths,
    };
    print_answer(
        rt,
        "cycle of 65 messages",
        cycles::cycle(messages, &ready, &mut taken, &mut loads),
    )?;
    let links = Network {
        windows: &windows,
        sizes: &sizes[..1],
        paths: &paths[..1],
    };
    print_answer(
        rt,
        "cycle over 33 links",
        cycles::cycle(links, &ready[..1], &mut taken, &mut loads),
    )
}

// The longest run: message 62 is released in its last cycle, and message 63 in the one after it.
fn longest_run(rt: &impl Print, cycles: usize) -> io::Result<()> {
    let network = Network {
        windows: &[65535; MAX_CYCLE_LINKS],
        sizes: &[65535; MAX_MESSAGES],
        paths: &[4294967295; MAX_MESSAGES],
    };
    let mut releases = [0; MAX_MESSAGES];
    releases[62] = 1023;
    releases[63] = 1024;
    let mut responses = [0; MAX_MESSAGES];
    let answer = cycles::run(network, &releases, cycles, &mut responses);
    print_answer(rt, format_args!("run of {cycles} cycles"), answer)?;
    for message in [0, 61, 62, 63] {
        println!(rt; "response of message {message}: {}", responses[message])?;
    }
    Ok(())
}

// As many cycles as there can be, one too many, and too few for all messages.
fn runs_at_their_limits(rt: &impl Print) -> io::Result<()> {
    for cycles in [1024, 1025, 61] {
        longest_run(rt, cycles)?;
    }
    Ok(())
}

// Runs all cases.
fn main(rt: HostRuntime) -> io::Result<()> {
    cells_of_messages(&rt)?;
    frames_at_their_limits(&rt)?;
    links_at_their_limits(&rt)?;
    tables_at_their_limits(&rt)?;
    offers_at_the_limit(&rt)?;
    entries_without_a_count(&rt)?;
    slots_at_their_limits(&rt)?;
    largest_cycle(&rt)?;
    cycles_past_the_limits(&rt)?;
    runs_at_their_limits(&rt)
}
