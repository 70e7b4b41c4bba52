// What a receiver tells of a stream.
#[derive(Clone, Copy, Debug, PartialEq, Eq)]
pub enum Event {
    Frame,
    Check,
    Short,
    Long,
    Pair,
    Addr,
}

// An event, and how many bytes of the content so far it carries: all before the check for a frame, its check right or wrong.
#[derive(Clone, Copy, Debug, PartialEq, Eq)]
pub struct Verdict {
    pub event: Event,
    pub length: usize,
}
