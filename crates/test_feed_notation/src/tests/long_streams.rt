//! Devices over readers and writers of std that move one byte per call, over more calls than a short test makes.

use crate::tests::feed_calls::{same, same_answer};
use lbk_feed::{Device, Failed, Sink, Source};
use std::alloc::{AllocError, Global};
use std::io;
use std::io::{ErrorKind, Read, Write};
use std::process::Abort;
use std::test::Fail;

const CALLS: u64 = 2_000_000;

/// A reader and writer of std that moves one byte per call; calls with these numbers, from 0, are interrupted. A byte
/// that is read shows the number of its call.
#[derive(Drop)]
struct OneByOne<'a> {
    calls: u64,
    interrupted: &'a [u64],
}

impl OneByOne<'_> {
    /// The number of this call, unless it is interrupted.
    fn call(&mut self) -> io::Result<u64> {
        let call = self.calls;
        self.calls = self.calls.saturating_add(1);
        if self.interrupted.contains(&call) {
            return Err(io::Error::new(ErrorKind::Interrupted, "told"));
        }
        Ok(call)
    }
}

impl Read for OneByOne<'_> {
    fn read(&mut self, buf: &mut [u8]) -> io::Result<usize> {
        let call = self.call()?;
        match buf {
            [first, ..] => {
                *first = byte_of(call);
                Ok(1)
            }
            [] => Ok(0),
        }
    }
}

impl Write for OneByOne<'_> {
    fn write(&mut self, bytes: &[u8]) -> io::Result<usize> {
        self.call()?;
        Ok(bytes.len().min(1))
    }

    fn flush(&mut self) -> io::Result<()> {
        Ok(())
    }
}

fn byte_of(call: u64) -> u8 {
    (call % 251) as u8
}

/// The result of the call with this number.
fn wanted(call: u64, interrupted: &[u64]) -> Result<usize, Failed> {
    if interrupted.contains(&call) {
        Err(Failed)
    } else {
        Ok(1)
    }
}

/// A device over a reader and writer with this interrupted.
fn device(interrupted: &[u64]) -> Device<OneByOne<'_>> {
    Device::new(OneByOne {
        calls: 0,
        interrupted,
    })
}

fn check_read(rt: &impl Abort, device: &mut Device<OneByOne<'_>>, call: u64, interrupted: &[u64]) {
    let mut buf = [0; 4];
    let outcome = device.read(&mut buf);
    same_answer(rt, outcome, wanted(call, interrupted), call);
    if outcome.is_ok() {
        same_answer(rt, buf, [byte_of(call), 0, 0, 0], call);
    }
}

// Each call of the device is one call of the reader: none is omitted or repeated.
fn check_reads(rt: &impl Abort, calls: u64, interrupted: &[u64]) {
    let mut device = device(interrupted);
    for call in 0..calls {
        check_read(rt, &mut device, call, interrupted);
    }
    same(rt, device.reads(), calls, "reads");
    same(
        rt,
        Source::failures(&device),
        interrupted.len() as u64,
        "failures",
    );
    assert!(rt; !device.ended());
}

fn check_write(rt: &impl Abort, device: &mut Device<OneByOne<'_>>, call: u64, interrupted: &[u64]) {
    let outcome = device.write(b"abc");
    same_answer(rt, outcome, wanted(call, interrupted), call);
}

fn check_writes(rt: &impl Abort, calls: u64, interrupted: &[u64]) {
    let mut device = device(interrupted);
    for call in 0..calls {
        check_write(rt, &mut device, call, interrupted);
    }
    same(
        rt,
        Sink::failures(&device),
        interrupted.len() as u64,
        "failures",
    );
}

#[test]
fn reads(rt: HostRuntime) {
    check_reads(&rt, CALLS, &[]);
}

#[test]
fn writes(rt: HostRuntime) {
    check_writes(&rt, CALLS, &[]);
}

// The first call, the one after a hundred failures, and one past the thousandth.
#[test]
fn interrupted_calls(rt: HostRuntime) -> Result<(), Fail> {
    check_reads(&rt, 2000, &[0, 1000]);
    check_writes(&rt, 2000, &[0, 1000]);
    let many = every_third(rt.alloc())?;
    check_reads(&rt, 2000, &many);
    check_writes(&rt, 2000, &many);
    Ok(())
}

/// Two hundred numbers of calls.
fn every_third(alloc: Global) -> Result<Vec<u64>, AllocError> {
    let mut many = Vec::new(alloc);
    for call in 0..200u64 {
        many.push(3 * call)?;
    }
    Ok(many)
}
