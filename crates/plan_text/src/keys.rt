// The fixed bytes of a plan text.

pub const FRAME_KEY: [u8; 6] = *b"frame=";

pub const PORTS_KEY: [u8; 6] = *b"ports=";

pub const FLOW_KEY: [u8; 5] = *b"flow=";

pub const ANSWER_KEY: [u8; 7] = *b"answer=";

pub const OUT_KEY: [u8; 4] = *b"out=";

pub const LINE_FEED: u8 = b'\n';

pub const COMMA: u8 = b',';

pub const MINUS: u8 = b'-';

// The byte of digit 0.
pub const ZERO_BYTE: usize = 48;

// The largest number of five digits.
pub const MAX_NUMBER: usize = 99999;
