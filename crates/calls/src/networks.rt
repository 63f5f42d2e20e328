// The network of a cycle or of a run: windows, sizes and paths, mostly in range, in lists that held only 0.
ghost use Rattle.std.specs.Prelude.{◌<◌};

use crate::buffers::{front, front_mut, word};
use crate::edges::{CYCLE_LINKS, MESSAGES, SIZES};
use crate::sequence::Sequence;
use answers::MAX_CYCLE_LINKS;
use cycles::Network;

// The lengths of the lists: the most links and messages that are picked.
pub const LINKS_HELD: usize = 40;

pub const MESSAGES_HELD: usize = 70;

// The lists of a network, and how many links and messages it has.
#[derive(Drop)]
pub struct Held {
    windows: [u16; LINKS_HELD],
    sizes: [u16; MESSAGES_HELD],
    paths: [u32; MESSAGES_HELD],
    links: usize,
    pub messages: usize,
}

// The path over all of the first links, each a bit; that over all that a path can have where there is none, or more than these.
fn longest_path(links: usize) -> u32
    ensures { 0 < result }
{
    if links == 0 || MAX_CYCLE_LINKS < links {
        u32::MAX
    } else {
        u32::MAX >> (MAX_CYCLE_LINKS - links)
    }
}

// Any path, also the empty one.
fn any_path(sequence: &mut Sequence) -> u32 {
    let low = sequence.pick(65536);
    let high = sequence.pick(65536);
    (low + 65536 * high) as u32
}

// One of the paths from 1 to the longest.
fn path_to(sequence: &mut Sequence, longest: u32) -> u32
    requires { 0 < longest }
{
    any_path(sequence) % longest + 1
}

impl Held {
    // Makes a network: all in range, but for damage.
    pub fn new(sequence: &mut Sequence) -> Held {
        let mut held = Held {
            windows: [0; LINKS_HELD],
            sizes: [0; MESSAGES_HELD],
            paths: [0; MESSAGES_HELD],
            links: sequence.edge_or_one_to(8, &CYCLE_LINKS, 6),
            messages: sequence.edge_or_one_to(8, &MESSAGES, 10),
        };
        held.fill(sequence);
        held.damage(sequence);
        held
    }

    // Fills the windows, then each message's size and path.
    fn fill(&mut self, sequence: &mut Sequence) {
        front_mut(&mut self.windows, self.links).fill_with(|| 10 + sequence.pick(11) as u16);
        let longest = longest_path(self.links);
        let sizes = front_mut(&mut self.sizes, self.messages);
        for (size, path) in sizes.iter_mut().zip(&mut self.paths) {
            *size = sequence.one_to(10) as u16;
            *path = path_to(sequence, longest);
        }
    }

    // Now and then puts a window, a size and a path that need not be in range.
    fn damage(&mut self, sequence: &mut Sequence) {
        let any_size = |sequence: &mut Sequence| word(sequence.edge(&SIZES));
        sequence.damage(&mut self.windows, 6, 6, any_size);
        sequence.damage(&mut self.sizes, 6, 10, any_size);
        sequence.damage(&mut self.paths, 6, 10, |sequence| {
            if sequence.one_in(3) {
                0
            } else {
                any_path(sequence)
            }
        });
    }

    // How many of the numbers that go with messages are lent: mostly one for each.
    pub fn marks_lent(&self, sequence: &mut Sequence) -> usize {
        sequence.pick_or(12, MESSAGES_HELD + 1, self.messages)
    }

    // Lends the first numbers of the lists, with mostly as many paths as messages.
    pub fn lent(&self, sequence: &mut Sequence) -> Network<'_> {
        let paths = self.marks_lent(sequence);
        Network {
            windows: front(&self.windows, self.links),
            sizes: front(&self.sizes, self.messages),
            paths: front(&self.paths, paths),
        }
    }
}
