//! Sources in memory.
ghost use Rattle.std.specs.Prelude.{◌≡◌, ◌≤◌, ◌<◌, ◌↔◌, Some, length, drop};
ghost use Rattle.std.specs.Prelude.{min, vec_len, IsTrue, IsErr, IfOk, OnErr};
ghost use Rattle.e_io.specs.Bytes.{ReadsBytes, Rose};
ghost use Rattle.e_io.specs.MemSource.{Supply, fails, bytes_given, after_read, buffer_after};

use crate::source::{Failed, Source};
use std::marker::Model;

/// Bytes in memory, given piece by piece, with failures at the calls that a test names.
#[derive(Drop)]
pub struct MemSource {
    bytes: Vec<u8>,
    at: usize,
    fail: Vec<u64>,
    piece: usize,
    call: u64,
    faults: u64,
}

impl Model for MemSource {
    ghost use Rattle.std.specs.Prelude.{◌≤◌, ◌<◌, drop, vec_len};
    ghost use Rattle.e_io.specs.MemSource.{Supply};

    ghost Value = { Supply };

    ghost view = { λ s. record {
      left = drop s.at s.bytes.items;
      fail = s.fail.items;
      piece = s.piece;
      call = s.call;
      faults = s.faults;
    } };

    ghost invariant = { λ s. (s.at ≤ vec_len s.bytes) × (0 < s.piece) };
}

impl MemSource {
    /// A source of these bytes. Exactly the calls whose numbers, from 0, are in `fail` fail; each
    /// other call gives the least of `piece`, the room of its buffer and what is left. The number
    /// of the next call and the count of faults stay at 2^64 - 1.
    pub fn new(bytes: Vec<u8>, fail: Vec<u64>, piece: usize) -> Self
        requires { 0 < piece }
        ensures { result ≡ record {
          left = bytes.items;
          fail = fail.items;
          piece = piece;
          call = 0;
          faults = 0;
        } }
    {
        MemSource {
            bytes,
            at: 0,
            fail,
            piece,
            call: 0,
            faults: 0,
        }
    }
}

impl Source for MemSource {
    ghost left = { λ s. Some s.left };

    ghost faults = { λ s. s.faults };

    fn read(&mut self, to: &mut [u8]) -> Result<usize, Failed>
        requires { 0 < length to.old }
        ensures count { IfOk result (λ n. n ≤ length to.old) }
        ensures bytes { ReadsBytes (Some self.old.left) (Some self.new.left) result to.new }
        ensures rises { self.old.faults ≤ self.new.faults }
        ensures cause { OnErr result (Rose self.old.faults self.new.faults) }

        // exactly the listed calls fail
        ensures fails { IsErr result ↔ IsTrue (fails self.old) }
        ensures given { IfOk result (λ n. n ≡ bytes_given self.old (length to.old)) }
        ensures after { self.new ≡ after_read self.old (length to.old) }
        ensures buffer { to.new ≡ buffer_after self.old to.old }
    {
        let call = self.call;
        self.call = call.saturating_add(1);
        if self.fail.contains(&call) {
            self.faults = self.faults.saturating_add(1);
            return Err(Failed);
        }
        let n = self.piece.min(to.len()).min(self.bytes.len() - self.at);
        to[..n].copy_from_slice(&self.bytes[self.at..self.at + n]);
        self.at += n;
        Ok(n)
    }
}

/// Bytes in memory that never fail.
#[derive(Drop)]
pub struct SureSource {
    bytes: Vec<u8>,
    at: usize,
}

impl Model for SureSource {
    ghost use Rattle.std.specs.Prelude.{◌≤◌, List, ℕ, drop, vec_len};

    ghost Value = { List ℕ };

    ghost view = { λ s. drop s.at s.bytes.items };

    ghost invariant = { λ s. s.at ≤ vec_len s.bytes };
}

impl SureSource {
    /// A source of these bytes that never fails, and gives as many as the buffer takes.
    pub fn new(bytes: Vec<u8>) -> Self
        ensures { result ≡ bytes.items }
    {
        SureSource { bytes, at: 0 }
    }
}

impl Source for SureSource {
    ghost left = { λ s. Some s };

    ghost faults = { λ _. 0 };

    fn read(&mut self, to: &mut [u8]) -> Result<usize, Failed>
        requires { 0 < length to.old }
        ensures count { IfOk result (λ n. n ≤ length to.old) }
        ensures bytes { ReadsBytes (Some self.old) (Some self.new) result to.new }
        ensures given { result ≡ Ok (min (length to.old) (length self.old)) }
    {
        let n = to.len().min(self.bytes.len() - self.at);
        to[..n].copy_from_slice(&self.bytes[self.at..self.at + n]);
        self.at += n;
        Ok(n)
    }
}
