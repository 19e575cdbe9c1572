//! Sources and sinks in memory, for tests: exactly the calls that are listed fail.
ghost use Rattle.std.specs.Prelude.{◌≡◌, ◌≤◌, ◌<◌, ◌⊎◌, true, false, ℕ, List, [], length, map, take, drop, min, None, Some, IfOk, OnErr, MatchOption, MatchResult};
ghost use Rattle.lens_io.specs.Calls.{AddsGive, AddsTake, ReadConsumes, ReadsAtMost, Rose, WriteAppends, call_of, calls_kept, offers_kept};
ghost use Rattle.lens_io.specs.InMemory.{PiecewiseSink, PiecewiseSource, one_more, is_failing, given_count, after_giving, after_refusing, taken_count, after_taking, after_declining};
ghost use Rattle.lens_io.specs.Within.{HasRoom};

use crate::input_output::{Failed, Sink, Source};
use crate::told::{Offer, Take, add_offer, add_take};
use no_memory::NoMemory;
use std::alloc::Global;
use std::marker::Model;

/// A source of bytes in memory. Each call gives as many as there is room for, and none fails.
#[derive(Drop)]
pub struct SureSource {
    bytes: Vec<u8>,
    at: usize,
}

impl Model for SureSource {
    ghost Value = { List ℕ };

    ghost view = { λ s. drop s.at s.bytes.items };
}

impl SureSource {
    /// A source of these bytes.
    pub fn new(bytes: Vec<u8>) -> SureSource
        ensures { result ≡ bytes.items }
    {
        SureSource { bytes, at: 0 }
    }
}

impl Source for SureSource {
    ghost left = { λ s. Some s };

    ghost faults = { λ _. 0 };

    ghost asked = { λ _. None };

    fn take(&mut self, into: &mut [u8]) -> Result<usize, Failed>
        requires { 0 < length into.old }
        ensures bound { ReadsAtMost result into.new }
        ensures bytes { ReadConsumes (Some self.old) (Some self.new) result into.new }
        ensures call { AddsTake None None result into.new }
        ensures count { result ≡ Ok (min (length into.old) (length self.old)) }
        ensures rest { self.new ≡ drop (min (length into.old) (length self.old)) self.old }
    {
        if self.at >= self.bytes.len() {
            return Ok(0);
        }
        let rest = &self.bytes[self.at..];
        let count = rest.len().min(into.len());
        into[..count].copy_from_slice(&rest[..count]);
        self.at += count;
        Ok(count)
    }
}

/// The calls of a device in memory: the numbers of those that fail, and how many there were and
/// have failed.
#[derive(Drop)]
struct Calls {
    failing: Vec<u64>,
    count: u64,
    faults: u64,
}

impl Calls {
    fn new(failing: Vec<u64>) -> Calls
        ensures { result ≡ record { failing = failing; count = 0; faults = 0 } }
    {
        Calls {
            failing,
            count: 0,
            faults: 0,
        }
    }

    /// Counts a call. It fails where it is refused or its number is listed.
    fn next(&mut self, refused: bool) -> Result<(), Failed>
        ensures failing { self.new.failing.items ≡ self.old.failing.items }
        ensures count { self.new.count ≡ one_more self.old.count }
        ensures faults { MatchResult result (λ _. self.new.faults ≡ self.old.faults)
            (λ _. self.new.faults ≡ one_more self.old.faults) }
        ensures cause { let listed = is_failing self.old.failing.items (one_more self.old.count) in
            MatchResult result (λ _. (refused ≡ false) × (listed ≡ false))
            (λ _. (refused ≡ true) ⊎ (listed ≡ true)) }
    {
        self.count = self.count.saturating_add(1);
        if refused || self.failing.contains(&self.count) {
            self.faults = self.faults.saturating_add(1);
            return Err(Failed);
        }
        Ok(())
    }
}

/// A source of bytes in memory that gives them in pieces, and fails at some calls. It keeps its
/// calls as long as there is memory for their list.
#[derive(Drop)]
pub struct MemorySource {
    source: SureSource,
    piece: usize,
    calls: Calls,
    kept: Option<Vec<Take>>,
}

impl Model for MemorySource {
    ghost Value = { PiecewiseSource };

    ghost view = { λ s. record {
      left = s.source;
      piece = s.piece;
      failing = s.calls.failing.items;
      calls = s.calls.count;
      faults = s.calls.faults;
      asked = calls_kept s.kept;
    } };

    ghost invariant = { λ s. 1 ≤ s.piece };
}

impl MemorySource {
    /// A source of these bytes, which gives at most `piece` of them a call. The calls with the
    /// numbers in `failing` fail; the first call is 1.
    pub fn new(bytes: Vec<u8>, piece: usize, failing: Vec<u64>) -> MemorySource
        requires { 1 ≤ piece }
        ensures { result ≡ record {
          left = bytes.items;
          piece = piece;
          failing = failing.items;
          calls = 0;
          faults = 0;
          asked = Some [];
        } }
    {
        let kept = Vec::new(*failing.allocator());
        MemorySource {
            source: SureSource::new(bytes),
            piece,
            calls: Calls::new(failing),
            kept: Some(kept),
        }
    }

    /// The calls so far, as long as there was memory for their list.
    pub fn asked(&self) -> Option<&[Take]>
        ensures { MatchOption result (self.now.asked ≡ None)
            (λ takes. self.now.asked ≡ Some (map call_of takes.now)) }
    {
        match &self.kept {
            Some(takes) => Some(takes.as_slice()),
            None => None,
        }
    }

    /// Gives the next bytes, where the call does not fail.
    fn give(&mut self, into: &mut [u8]) -> Result<usize, Failed>
        requires { 0 < length into.old }
        ensures bound { ReadsAtMost result into.new }
        ensures bytes { ReadConsumes (Some self.old.left) (Some self.new.left) result into.new }
        ensures later { self.old.faults ≤ self.new.faults }
        ensures failed { OnErr result (Rose self.old.faults self.new.faults) }
        ensures gives { IfOk result (λ count. (count ≡ given_count self.old (length into.old))
            × (self.new ≡ after_giving self.old count)) }
        ensures refuses { OnErr result (self.new ≡ after_refusing self.old) }
        ensures cause { let listed = is_failing self.old.failing (one_more self.old.calls) in
            MatchResult result (λ _. listed ≡ false) (λ _. listed ≡ true) }
    {
        self.calls.next(false)?;
        let most = into.len().min(self.piece);
        self.source.take(&mut into[..most])
    }

    /// How many calls have failed.
    pub fn faults(&self) -> u64
        ensures { result ≡ self.now.faults }
    {
        self.calls.faults
    }
}

impl Source for MemorySource {
    ghost left = { λ s. Some s.left };

    ghost faults = { λ s. s.faults };

    ghost asked = { λ s. s.asked };

    fn take(&mut self, into: &mut [u8]) -> Result<usize, Failed>
        requires { 0 < length into.old }
        ensures bound { ReadsAtMost result into.new }
        ensures bytes { ReadConsumes (Some self.old.left) (Some self.new.left) result into.new }
        ensures call { AddsTake self.old.asked self.new.asked result into.new }
        ensures later { self.old.faults ≤ self.new.faults }
        ensures failed { OnErr result (Rose self.old.faults self.new.faults) }
        ensures gives { IfOk result (λ count. (count ≡ given_count self.old (length into.old))
            × (self.new ≡ record (after_giving self.old count) { asked = self.new.asked })) }
        ensures refuses { OnErr result
            (self.new ≡ record (after_refusing self.old) { asked = self.new.asked }) }
        ensures cause { let listed = is_failing self.old.failing (one_more self.old.calls) in
            MatchResult result (λ _. listed ≡ false) (λ _. listed ≡ true) }
    {
        match self.give(into) {
            Ok(count) => {
                add_take(&mut self.kept, into.len(), &into[..count]);
                Ok(count)
            }
            Err(Failed) => {
                add_take(&mut self.kept, into.len(), &[]);
                Err(Failed)
            }
        }
    }
}

/// A sink in memory that takes bytes in pieces, and fails at some calls. It keeps its calls as long
/// as there is memory for their list.
#[derive(Drop)]
pub struct MemorySink {
    bytes: Vec<u8>,
    room: usize,
    piece: usize,
    calls: Calls,
    kept: Option<Vec<Offer>>,
}

impl Model for MemorySink {
    ghost Value = { PiecewiseSink };

    ghost view = { λ s. record {
      taken = s.bytes.items;
      room = s.room;
      piece = s.piece;
      failing = s.calls.failing.items;
      calls = s.calls.count;
      faults = s.calls.faults;
      offered = offers_kept s.kept;
    } };

    ghost invariant = { HasRoom };
}

impl MemorySink {
    /// A sink of `room` bytes, which takes at most `piece` of them a call. It takes all its memory
    /// here. The calls with the numbers in `failing` fail; the first call is 1. `NoMemory`: there
    /// is no memory for `room` bytes.
    pub fn new(
        alloc: Global,
        room: usize,
        piece: usize,
        failing: Vec<u64>,
    ) -> Result<MemorySink, NoMemory>
        requires { 1 ≤ piece }
        ensures { IfOk result (λ sink. sink ≡ record {
          taken = [];
          room = room;
          piece = piece;
          failing = failing.items;
          calls = 0;
          faults = 0;
          offered = Some [];
        }) }
    {
        let bytes = Vec::with_capacity(alloc, room)?;
        Ok(MemorySink {
            bytes,
            room,
            piece,
            calls: Calls::new(failing),
            kept: Some(Vec::new(alloc)),
        })
    }

    /// The calls so far, as long as there was memory for their list.
    pub fn offered(&self) -> Option<&[Offer]>
        ensures { MatchOption result (self.now.offered ≡ None)
            (λ offers. self.now.offered ≡ Some offers.now) }
    {
        match &self.kept {
            Some(offers) => Some(offers.as_slice()),
            None => None,
        }
    }

    /// Takes the first bytes of the piece, where the call does not fail.
    fn accept(&mut self, piece: &[u8]) -> Result<usize, Failed>
        requires { 0 < length piece.now }
        ensures some { IfOk result (λ n. 0 < n) }
        ensures bound { IfOk result (λ n. n ≤ length piece.now) }
        ensures bytes { WriteAppends (Some self.old.taken) (Some self.new.taken) result piece.now }
        ensures later { self.old.faults ≤ self.new.faults }
        ensures failed { OnErr result (Rose self.old.faults self.new.faults) }
        ensures takes { IfOk result (λ count. (count ≡ taken_count self.old (length piece.now))
            × (self.new ≡ after_taking self.old (take count piece.now))) }
        ensures declines { OnErr result (self.new ≡ after_declining self.old) }
        ensures cause { let listed = is_failing self.old.failing (one_more self.old.calls) in
            MatchResult result (λ _. listed ≡ false)
            (λ _. (listed ≡ true) ⊎ (length self.old.taken ≡ self.old.room)) }
    {
        let room = self.room - self.bytes.len();
        self.calls.next(room == 0)?;
        let count = piece.len().min(self.piece).min(room);
        match self.bytes.extend_from_slice(&piece[..count]) {
            Ok(()) => Ok(count),
            Err(_) => unreachable!(),
        }
    }

    /// The bytes that it has taken.
    pub fn bytes(&self) -> &[u8]
        ensures { result.now ≡ self.now.taken }
    {
        self.bytes.as_slice()
    }

    /// How many calls have failed.
    pub fn faults(&self) -> u64
        ensures { result ≡ self.now.faults }
    {
        self.calls.faults
    }
}

impl Sink for MemorySink {
    ghost taken = { λ s. Some s.taken };

    ghost faults = { λ s. s.faults };

    ghost offered = { λ s. s.offered };

    fn give(&mut self, piece: &[u8]) -> Result<usize, Failed>
        requires { 0 < length piece.now }
        ensures some { IfOk result (λ n. 0 < n) }
        ensures bound { IfOk result (λ n. n ≤ length piece.now) }
        ensures bytes { WriteAppends (Some self.old.taken) (Some self.new.taken) result piece.now }
        ensures call { AddsGive self.old.offered self.new.offered result piece.now }
        ensures later { self.old.faults ≤ self.new.faults }
        ensures failed { OnErr result (Rose self.old.faults self.new.faults) }
        ensures takes { IfOk result (λ count. (count ≡ taken_count self.old (length piece.now))
            × (self.new ≡ record (after_taking self.old (take count piece.now)) {
              offered = self.new.offered;
            })) }
        ensures declines { OnErr result
            (self.new ≡ record (after_declining self.old) { offered = self.new.offered }) }
        ensures cause { let listed = is_failing self.old.failing (one_more self.old.calls) in
            MatchResult result (λ _. listed ≡ false)
            (λ _. (listed ≡ true) ⊎ (length self.old.taken ≡ self.old.room)) }
    {
        match self.accept(piece) {
            Ok(count) => {
                add_offer(&mut self.kept, piece.len(), count);
                Ok(count)
            }
            Err(Failed) => {
                add_offer(&mut self.kept, piece.len(), 0);
                Err(Failed)
            }
        }
    }
}
