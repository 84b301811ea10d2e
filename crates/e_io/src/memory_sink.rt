//! Sinks in memory.
ghost use Rattle.std.specs.Prelude.{◌≡◌, ◌≤◌, ◌<◌, ◌↔◌, Some, None, []};
ghost use Rattle.std.specs.Prelude.{length, IsTrue, IsErr, IfOk, OnErr};
ghost use Rattle.e_io.specs.Bytes.{TakesBytes, Rose};
ghost use Rattle.e_io.specs.MemSink.{Store, fails, bytes_taken, after_write};

use crate::sink::Sink;
use crate::source::Failed;
use std::alloc::{AllocError, Global};
use std::marker::Model;

/// A store of bytes in memory with a fixed room, and failures at the calls that a test names.
#[derive(Drop)]
pub struct MemSink {
    bytes: Vec<u8>,
    room: usize,
    fail: Vec<u64>,
    piece: usize,
    call: u64,
    faults: u64,
}

impl Model for MemSink {
    ghost use Rattle.std.specs.Prelude.{◌≤◌, ◌<◌, vec_len, vec_capacity};
    ghost use Rattle.e_io.specs.MemSink.{Store};

    ghost Value = { Store };

    ghost view = { λ s. record {
      written = s.bytes.items;
      room = s.room;
      fail = s.fail.items;
      piece = s.piece;
      call = s.call;
      faults = s.faults;
    } };

    ghost invariant = { λ s. (vec_len s.bytes ≤ s.room)
        × (s.room ≤ vec_capacity s.bytes) × (0 < s.piece) };
}

impl MemSink {
    /// An empty store with room for this many bytes. A call fails exactly where its number, from 0,
    /// is in `fail`, or where `room` bytes are already written; each other call takes the least of
    /// `piece`, the bytes offered and the room left. The memory for `room` bytes is taken here and
    /// none later. The number of the next call and the count of faults stay at 2^64 - 1.
    pub fn new(
        alloc: Global,
        room: usize,
        fail: Vec<u64>,
        piece: usize,
    ) -> Result<MemSink, AllocError>
        requires { 0 < piece }
        ensures { IfOk result (λ s. s ≡ record {
          written = [];
          room = room;
          fail = fail.items;
          piece = piece;
          call = 0;
          faults = 0;
        }) }
    {
        Ok(MemSink {
            bytes: Vec::with_capacity(alloc, room)?,
            room,
            fail,
            piece,
            call: 0,
            faults: 0,
        })
    }

    /// What was written.
    pub fn bytes(&self) -> &[u8]
        ensures { result.now ≡ self.now.written }
    {
        &self.bytes
    }
}

impl Sink for MemSink {
    ghost written = { λ s. Some s.written };

    ghost faults = { λ s. s.faults };

    fn write(&mut self, from: &[u8]) -> Result<usize, Failed>
        requires { 0 < length from.now }
        ensures count { IfOk result (λ n. (0 < n) × (n ≤ length from.now)) }
        ensures bytes { TakesBytes (Some self.old.written) (Some self.new.written) result from.now }
        ensures rises { self.old.faults ≤ self.new.faults }
        ensures cause { OnErr result (Rose self.old.faults self.new.faults) }

        // exactly the listed calls and those at a full store fail
        ensures fails { IsErr result ↔ IsTrue (fails self.old) }
        ensures taken { IfOk result (λ n. n ≡ bytes_taken self.old (length from.now)) }
        ensures after { self.new ≡ after_write self.old from.now }
    {
        let call = self.call;
        self.call = call.saturating_add(1);
        if self.fail.contains(&call) || self.bytes.len() == self.room {
            self.faults = self.faults.saturating_add(1);
            return Err(Failed);
        }
        let n = self.piece.min(from.len()).min(self.room - self.bytes.len());
        self.bytes.extend_from_slice(&from[..n]).unwrap();
        Ok(n)
    }
}

/// A sink that takes all bytes, keeps none and never fails.
#[derive(Drop)]
pub struct NullSink;

impl NullSink {
    /// A sink that keeps nothing.
    pub fn new() -> Self
        ensures { result ≡ record {} }
    {
        NullSink
    }
}

impl Sink for NullSink {
    ghost written = { λ _. None };

    ghost faults = { λ _. 0 };

    fn write(&mut self, from: &[u8]) -> Result<usize, Failed>
        requires { 0 < length from.now }
        ensures count { IfOk result (λ n. (0 < n) × (n ≤ length from.now)) }
        ensures taken { result ≡ Ok (length from.now) }
    {
        Ok(from.len())
    }
}
