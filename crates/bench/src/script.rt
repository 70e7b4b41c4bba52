// The script on standard input.
use crate::buffer::front_mut;
use crate::number::number;
use crate::op::Op;
use std::io::{Error, Read};

// A record of the script: its op with the code, and a payload of so many bytes.
#[derive(Clone, Copy)]
pub(crate) struct Record {
    pub(crate) op: Op,
    pub(crate) code: u8,
    pub(crate) length: usize,
}

// Why no record follows: the script ends, in a record or not, it has an unknown op, or a read failed.
#[derive(Clone, Copy)]
pub(crate) enum Ending {
    End,
    Cut,
    Bad,
    Failed(Error),
}

// Reads the next record; its payload stands at the front of `space`.
pub(crate) fn read_record(rt: &HostRuntime, space: &mut [u8]) -> Result<Record, Ending> {
    let mut code = [0u8; 1];
    read_part(rt, &mut code, Ending::End)?;
    let [code] = code;
    let op = Op::with_code(code).ok_or(Ending::Bad)?;
    let mut length = [0u8; 2];
    read_part(rt, &mut length, Ending::Cut)?;
    let length = number(length);
    read_part(rt, front_mut(space, length), Ending::Cut)?;
    Ok(Record { op, code, length })
}

// Reads until all of `part` is filled; where the script ends before that, this is its ending.
fn read_part(rt: &HostRuntime, part: &mut [u8], ending: Ending) -> Result<(), Ending> {
    let mut done = 0;
    // not read_exact, which tries an interrupted read again: that is a failure here as it is in listing and report
    while done < part.len() {
        match rt.stdin().read(&mut part[done..]).map_err(Ending::Failed)? {
            0 => return Err(ending),
            count => done += count,
        }
    }
    Ok(())
}
