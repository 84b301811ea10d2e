//! A sink in memory that grows, for `trial`.
ghost use Rattle.std.specs.Prelude.{◌≡◌, ◌≤◌, ◌^◌, [], length};

use crate::input::MOST_TEXT;
use e_io::{Failed, Sink};
use std::alloc::Global;
use std::marker::Model;

/// Bytes in memory, at most as many as a derivation text may have. A write that would make them
/// more, or finds no memory, fails and takes nothing.
#[derive(Drop)]
pub struct Store {
    bytes: Vec<u8>,
    faults: u64,
}

impl Model for Store {
    ghost use Rattle.std.specs.Prelude.{◌≤◌, ◌^◌, List, ℕ, vec_len};

    ghost Value = { List ℕ × ℕ };

    ghost view = { λ s. (s.bytes.items, s.faults) };

    ghost invariant = { λ s. vec_len s.bytes ≤ 2 ^ 60 };
}

impl Store {
    /// Nothing is written.
    pub fn new(alloc: Global) -> Store
        ensures { result ≡ ([], 0) }
    {
        Store {
            bytes: Vec::new(alloc),
            faults: 0,
        }
    }

    /// What was written.
    pub fn into_bytes(self) -> Vec<u8>
        ensures value { result.items ≡ self.0 }
        ensures few { length result.items ≤ 2 ^ 60 }
    {
        self.bytes
    }
}

impl Sink for Store {
    ghost use Rattle.std.specs.Prelude.{◌≡◌, ◌≤◌, ◌<◌, Some, length, IfOk, OnErr};
    ghost use Rattle.e_io.specs.Bytes.{TakesBytes, Rose};

    ghost written = { λ s. Some s.0 };

    ghost faults = { λ s. s.1 };

    fn write(&mut self, from: &[u8]) -> Result<usize, Failed>
        requires { 0 < length from.now }
        ensures count { IfOk result (λ n. (0 < n) × (n ≤ length from.now)) }
        ensures bytes { TakesBytes (Some self.old.0) (Some self.new.0) result from.now }
        ensures rises { self.old.1 ≤ self.new.1 }
        ensures cause { OnErr result (Rose self.old.1 self.new.1) }
    {
        let has_room = from.len() <= MOST_TEXT - self.bytes.len();
        if has_room && self.bytes.extend_from_slice(from).is_ok() {
            return Ok(from.len());
        }
        self.faults = self.faults.saturating_add(1);
        Err(Failed)
    }
}
