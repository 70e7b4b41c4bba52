// The ops of a script.
use crate::readers::ReaderOp;
use crate::receivers::{Line, ReceiverOp};
use crate::values::Value;
use crate::writers::Writer;

#[derive(Clone, Copy)]
pub(crate) enum Op {
    Write(Writer),
    Value(Value),
    Receiver(ReceiverOp),
    Reader(ReaderOp),
    Reading,
}

impl Op {
    // The op that a code names, if there is one.
    pub(crate) fn with_code(code: u8) -> Option<Op> {
        let op = match code {
            0x01 => Op::Write(Writer::Point),
            0x02 => Op::Write(Writer::Addressed),
            0x03 => Op::Value(Value::ImageLength),
            0x04 => Op::Value(Value::Fcs),
            0x05 => Op::Value(Value::Sum),
            0x10 => Op::Receiver(ReceiverOp::Hear(Line::Point)),
            0x11 => Op::Receiver(ReceiverOp::NewStation),
            0x12 => Op::Receiver(ReceiverOp::Hear(Line::Addressed)),
            0x13 => Op::Receiver(ReceiverOp::SetReceiver),
            0x20 => Op::Reader(ReaderOp::Answer),
            0x21 => Op::Reader(ReaderOp::PowerOn),
            0x22 => Op::Reader(ReaderOp::SetReader),
            0x23 => Op::Reader(ReaderOp::Buffers),
            0x24 => Op::Write(Writer::Request),
            0x25 => Op::Reading,
            0x26 => Op::Reader(ReaderOp::NewReader),
            0x27 => Op::Reader(ReaderOp::SetHeader),
            _ => return None,
        };
        Some(op)
    }
}
