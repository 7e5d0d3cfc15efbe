// A row's call once more for each call of a device, which then fails.

use crate::trial::{Ended, end_of, shown};
use row_tables::{Call, Device, Fault};
use std::alloc::Global;
use std::io;

/// The status where a file could not be read, and where the output or a line could not be written.
const READ_FAULT: u8 = 3;

const WRITE_FAULT: u8 = 4;

/// What stands on err where a file could not be read.
const READ_LINE: &[u8] = b"error: read\n";

/// Which device fails.
#[derive(Clone, Copy, Debug, PartialEq, Eq)]
enum Failing {
    Shelf,
    Out,
    Err,
}

impl Failing {
    fn name(self) -> &'static str {
        match self {
            Failing::Shelf => "the shelf",
            Failing::Out => "out",
            Failing::Err => "err",
        }
    }

    fn device(self, call: &Call) -> &Device {
        match self {
            Failing::Shelf => &call.shelf,
            Failing::Out => &call.out,
            Failing::Err => &call.err,
        }
    }
}

/// Lets each call of a device fail in turn, where the row asks that, and prints where the tool ends otherwise than it has to.
pub fn all_turns_fail(
    rt: &impl Print,
    alloc: Global,
    name: &str,
    call: &Call,
    whole: &Ended,
) -> io::Result<bool> {
    let mut all = true;
    for failing in [Failing::Shelf, Failing::Out, Failing::Err] {
        if let Some(least) = failing.device(call).in_turn {
            all &= turns_fail(rt, alloc, name, call, whole, failing, least)?;
        }
    }
    Ok(all)
}

/// Lets the first call of a device fail, then the second, until the call ends as it does without that.
fn turns_fail(
    rt: &impl Print,
    alloc: Global,
    name: &str,
    call: &Call,
    whole: &Ended,
    failing: Failing,
    least: u64,
) -> io::Result<bool> {
    let device = failing.name();
    for before in 0..u64::MAX {
        let number = before.saturating_add(1);
        let ended = match turn(alloc, call, failing, number) {
            Ok(ended) => ended,
            Err(fault) => {
                println!(rt; "{name}: {fault}")?;
                return Ok(false);
            }
        };
        if is_same(&ended, whole) {
            if before < least {
                println!(rt; "{name}: only {before} calls of {device} fail")?;
            }
            return Ok(before >= least);
        }
        if !is_as_due(failing, &ended, whole, most_before(call, failing, before)) {
            tell(rt, name, device, number, &ended)?;
            return Ok(false);
        }
    }
    Ok(false)
}

/// Makes the call, where one more call of a device fails.
fn turn(alloc: Global, call: &Call, failing: Failing, number: u64) -> Result<Ended, Fault> {
    let mut call = call.copy(alloc)?;
    match failing {
        Failing::Shelf => call.shelf.failing.push(number)?,
        Failing::Out => call.out.failing.push(number)?,
        Failing::Err => call.err.failing.push(number)?,
    }
    end_of(alloc, call)
}

fn is_same(ended: &Ended, whole: &Ended) -> bool {
    ended.status == whole.status
        && ended.out.written() == whole.out.written()
        && ended.err.written() == whole.err.written()
}

/// How many bytes so many calls of a device move at most.
fn most_before(call: &Call, failing: Failing, calls: u64) -> u64 {
    calls.saturating_mul(failing.device(call).most as u64)
}

/// Whether a call ended as it has to where a call of the device failed, before which so many bytes were moved at most.
fn is_as_due(failing: Failing, ended: &Ended, whole: &Ended, most: u64) -> bool {
    let (out, err) = (ended.out.written(), ended.err.written());
    match failing {
        Failing::Shelf => { ended.status == READ_FAULT && out.is_empty() && err == READ_LINE }
        Failing::Out => {
            ended.status == WRITE_FAULT
                && err.is_empty()
                && is_proper_front(out, whole.out.written(), most)
        }
        Failing::Err => {
            ended.status == WRITE_FAULT
                && out == whole.out.written()
                && is_proper_front(err, whole.err.written(), most)
        }
    }
}

/// Whether a text is a prefix of another one that is longer, and has so many bytes at most.
fn is_proper_front(front: &[u8], whole: &[u8], most: u64) -> bool {
    front.len() < whole.len() && front.len() as u64 <= most && whole.starts_with(front)
}

/// Prints how a call ended where it had to end otherwise.
fn tell(rt: &impl Print, name: &str, device: &str, number: u64, ended: &Ended) -> io::Result<()> {
    println!(rt;
        "{name}: call {number} of {device} fails, and the status is {}",
        ended.status
    )?;
    println!(rt; "{name}: on err stands {}", shown(ended.err.written()))?;
    println!(rt; "{name}: on out stands {}", shown(ended.out.written()))
}
