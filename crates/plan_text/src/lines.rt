// The lines that the planner prints.
ghost use Rattle.plan_text.specs.Plans.{Puts, HasRoom};
ghost use Rattle.plan_text.specs.Lines.{joined, joined_tail, answer_line, out_line};

use crate::keys::{ANSWER_KEY, COMMA, LINE_FEED, OUT_KEY};
use crate::placing::tail_at;
use crate::writer::Writer;
use answers::Answer;

impl Writer<'_> {
    // Puts the line of an answer.
    pub fn put_answer(&mut self, answer: Answer)
        requires { HasRoom self.old (answer_line answer.number answer.detail) }
        ensures { Puts self.old (answer_line answer.number answer.detail) self.new }
    {
        self.put_bytes(&ANSWER_KEY);
        self.put_number(u64::from(answer.number));
        self.put_byte(COMMA);
        self.put_signed(answer.detail);
        self.put_byte(LINE_FEED);
    }

    // Puts entries, each after a comma.
    fn put_tail(&mut self, row: &[u8])
        requires { HasRoom self.old (joined_tail row.now) }
        ensures { Puts self.old (joined_tail row.now) self.new }
    {
        self.at = tail_at(self.out, self.at, row);
    }

    // Puts the entries of a row between commas.
    #[tactic(auto, using(crate::proofs::Putting::puts_then))]
    fn put_entries(&mut self, row: &[u8])
        requires { HasRoom self.old (joined row.now) }
        ensures { Puts self.old (joined row.now) self.new }
    {
        if let Some((&first, rest)) = row.split_first() {
            self.put_number(u64::from(first));
            self.put_tail(rest);
        }
    }

    // Puts the line of an output's row.
    pub fn put_row(&mut self, row: &[u8])
        requires { HasRoom self.old (out_line row.now) }
        ensures { Puts self.old (out_line row.now) self.new }
    {
        self.put_bytes(&OUT_KEY);
        self.put_entries(row);
        self.put_byte(LINE_FEED);
    }
}
