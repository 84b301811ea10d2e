//! Sources and sinks, call by call.

use crate::answer::Answer;
use crate::rows::{number, two};
use e_io::{MemSink, MemSource, NullSink, Source, StdSink, StdSource, SureSource, write_all};
use std::alloc::{AllocError, Global};
use std::io::{self, Cursor, Read};

/// What is written to a sink in memory.
const TEXT: &[u8] = b"0123456789abcdefghijklmnopqrstuvwxyzABCD";

/// Puts what the calls of a source or of a sink answer.
pub fn put(alloc: Global, out: &mut Answer, call: &str, on: &str) -> Result<(), AllocError> {
    match call {
        "memory-source" => put_memory_source(alloc, out, on),
        "sure-source" => put_sure_source(alloc, out, on),
        "memory-sink" => put_memory_sink(alloc, out, on),
        _ => {
            put_std(out, call, on);
            Ok(())
        }
    }
}

fn put_std(out: &mut Answer, call: &str, on: &str) {
    match call {
        "std-source" => put_calls(out, &mut StdSource::new(on.as_bytes())),
        "torn-source" => put_calls(out, &mut StdSource::new(Torn { fresh: true })),
        "std-sink" => put_std_sink(out, on),
        _ => out.show(&write_all(&mut NullSink::new(), on.as_bytes())),
    }
}

// What each call answers, and its buffer after it.
fn put_calls<S: Source>(out: &mut Answer, source: &mut S) {
    for _ in 0..6 {
        let mut to = [b'-'; 5];
        out.show(&source.read(&mut to));
        out.text(&to);
    }
}

fn put_memory_source(alloc: Global, out: &mut Answer, text: &str) -> Result<(), AllocError> {
    let fail = [0, 2].to_vec(alloc)?;
    let text = text.as_bytes().to_vec(alloc)?;
    put_calls(out, &mut MemSource::new(text, fail, 3));
    Ok(())
}

fn put_sure_source(alloc: Global, out: &mut Answer, text: &str) -> Result<(), AllocError> {
    let text = text.as_bytes().to_vec(alloc)?;
    put_calls(out, &mut SureSource::new(text));
    Ok(())
}

/// A reader that is interrupted in mid-stream: once bytes came, it only fails.
#[derive(Drop)]
struct Torn {
    fresh: bool,
}

impl Read for Torn {
    fn read(&mut self, buf: &mut [u8]) -> io::Result<usize> {
        match buf {
            [first, ..] if self.fresh => {
                self.fresh = false;
                *first = b'a';
                Ok(1)
            }
            _ => Err(io::Error::other("torn")),
        }
    }
}

fn put_memory_sink(alloc: Global, out: &mut Answer, on: &str) -> Result<(), AllocError> {
    let (room, fail) = two(on, " : ");
    let mut calls = Vec::new(alloc);
    if !fail.is_empty() {
        calls.push(number(fail) as u64)?;
    }
    let mut sink = MemSink::new(alloc, number(room), calls, 16)?;
    out.show(&write_all(&mut sink, TEXT));
    out.text(sink.bytes());
    Ok(())
}

// The writer has room for four bytes, and takes none of the fifth.
fn put_std_sink(out: &mut Answer, text: &str) {
    let mut sink = StdSink::new(Cursor::new([0; 4]));
    out.show(&write_all(&mut sink, text.as_bytes()));
}
