// Reading byte by byte.
ghost use Rattle.std.specs.Prelude.{◌≡◌, true};
ghost use Rattle.plan_text.specs.Reading.{key_of, end_of, next_field, value_of, in_key, may_grow, takes, ends_number, before_field, past, may_end};

use crate::keys::{COMMA, FLOW_KEY, FRAME_KEY, LINE_FEED, MAX_NUMBER, PORTS_KEY, ZERO_BYTE};

// The numbers of a plan text, in the order of their coming; the last three come again with each flow.
#[derive(Clone, Copy, Debug, PartialEq, Eq)]
pub enum Field {
    Frame,
    Ports,
    Input,
    Output,
    Cells,
}

impl Field {
    // The key before the field's number; an output and cells have none.
    fn key(self) -> &'static [u8]
        ensures { result.now ≡ key_of self }
    {
        match self {
            Field::Frame => &FRAME_KEY,
            Field::Ports => &PORTS_KEY,
            Field::Input => &FLOW_KEY,
            Field::Output | Field::Cells => &[],
        }
    }

    // The byte that ends the field's number.
    fn end(self) -> u8
        ensures { result ≡ end_of self }
    {
        match self {
            Field::Frame | Field::Ports | Field::Cells => LINE_FEED,
            Field::Input | Field::Output => COMMA,
        }
    }

    // The field after the field's end.
    fn next(self) -> Field
        ensures { result ≡ next_field self }
    {
        match self {
            Field::Frame => Field::Ports,
            Field::Ports | Field::Cells => Field::Input,
            Field::Input => Field::Output,
            Field::Output => Field::Cells,
        }
    }
}

// Where the reading stands: in which field, how many bytes of its key have come, and its number so far, if that has begun.
#[derive(Clone, Copy, Debug, PartialEq, Eq)]
pub struct Reader {
    pub field: Field,
    pub matched: usize,
    pub number: Option<usize>,
}

impl Reader {
    // Before any byte of a field.
    pub fn before(field: Field) -> Reader
        ensures { result ≡ before_field field }
    {
        Reader {
            field,
            matched: 0,
            number: None,
        }
    }

    // The number so far, 0 before its first digit.
    pub fn value(self) -> usize
        ensures { result ≡ value_of self }
    {
        self.number.unwrap_or(0)
    }

    // Whether bytes of the key are still to come.
    fn in_key(self) -> bool
        ensures { result ≡ in_key self }
    {
        self.matched < self.field.key().len()
    }

    // Whether one more digit leaves a number without a leading 0 and of at most 5 digits.
    fn may_grow(self) -> bool
        ensures { result ≡ may_grow self }
    {
        self.number
            .is_none_or(|n| !answers::outside(1, MAX_NUMBER / 10, n))
    }

    // Whether the byte may come next.
    #[tactic(auto, unfolding(crate::specs::Reading::takes))]
    pub fn takes(self, b: u8) -> bool
        ensures { result ≡ takes self b }
    {
        if let Some(&expected) = self.field.key().get(self.matched) {
            return b == expected;
        }
        if b.is_ascii_digit() {
            return self.may_grow();
        }
        self.number.is_some() && b == self.field.end()
    }

    // Whether the byte ends a number.
    #[tactic(auto, unfolding(crate::specs::Reading::ends_number))]
    pub fn ends_number(self, b: u8) -> bool
        ensures { result ≡ ends_number self b }
    {
        !self.in_key() && !b.is_ascii_digit()
    }

    // Where the reading stands after a byte that it takes.
    #[tactic(auto, unfolding(crate::specs::Reading::past, crate::specs::Reading::takes))]
    pub fn past(self, b: u8) -> Reader
        requires { takes self b ≡ true }
        ensures { result ≡ past self b }
    {
        if self.in_key() {
            return Reader {
                matched: self.matched + 1,
                ..self
            };
        }
        if b.is_ascii_digit() {
            let digit = usize::from(b) - ZERO_BYTE;
            return Reader {
                number: Some(self.value() * 10 + digit),
                ..self
            };
        }
        Reader::before(self.field.next())
    }

    // Whether a text may end here.
    pub fn may_end(self) -> bool
        ensures { result ≡ may_end self }
    {
        matches!(self.field, Field::Input) && self.matched == 0
    }
}
