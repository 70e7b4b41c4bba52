// What lives from record to record, and what a record does to it.
use crate::masters::put_reading;
use crate::op::Op;
use crate::readers::Device;
use crate::receivers::Receivers;
use crate::row::Row;
use crate::values::put_value;
use crate::writers::put_written;

#[derive(Clone, Copy)]
pub(crate) struct Bench {
    receivers: Receivers,
    device: Device,
}

impl Bench {
    pub(crate) fn fresh() -> Bench {
        Bench {
            receivers: Receivers::fresh(),
            device: Device::fresh(),
        }
    }

    // Does what the op asks for with this payload, and puts its fields.
    pub(crate) fn perform(&mut self, op: Op, payload: &[u8], row: Row) -> Row {
        match op {
            Op::Write(writer) => put_written(writer, payload, row),
            Op::Value(value) => put_value(value, payload, row),
            Op::Reading => put_reading(payload, row),
            Op::Receiver(op) => self.receivers.perform(op, payload, row),
            Op::Reader(op) => self.device.perform(op, payload, row),
        }
    }
}
