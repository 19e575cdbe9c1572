//! The search for a line's end, among the bytes that wait and then by asking the source.
ghost use Rattle.std.specs.Prelude.{◌≡◌, ◌≤◌, ◌<◌, ◌^◌, ◌+◌, ◌-◌, false, length, [], take, min, vec_len, vec_capacity, slice_range, slice_index, IfOk, OnErr, MatchOption};
ghost use Rattle.std.specs.Io.KnownBytes.{Consumes, IsAtEnd, Keeps};
ghost use Rattle.lens_io.specs.Calls.{AddsCall, Rose};
ghost use Rattle.lens_io.specs.Cutting.{HasNoNewline, NeedsNone, Passed};
ghost use Rattle.lens_io.specs.Within.{FoundCuts, IsWithin};

use crate::cutting::found::{Found, cut_at, last_line, spent, stopped};
use crate::cutting::{Cut, ROOM};
use crate::input_output::{Failed, Source};
use io_specs::LONGEST_LINE;

/// Finds the next line among the bytes that wait, or asks the source for more.
pub(super) fn find<S: Source>(source: &mut S, bytes: &mut Vec<u8>, last: Found, limit: u64) -> Found
    requires capacity { LONGEST_LINE + ROOM ≤ vec_capacity bytes.old }
    requires limit { limit ≤ 2 ^ 40 }
    requires last { IsWithin last limit (vec_len bytes.old) }
    ensures capacity { LONGEST_LINE + ROOM ≤ vec_capacity bytes.new }
    ensures cuts { FoundCuts result bytes.new.items (slice_range bytes.old.items last.start last.end)
        last.taken limit last.ended (S.left source.old) (S.left source.new)
        (S.asked source.old) (S.asked source.new) }
    ensures asks { NeedsNone (slice_range bytes.old.items last.start last.end) last.taken limit last.ended
        → source.new ≡ source.old }
    ensures within { IsWithin result limit (vec_len bytes.new) }
    ensures later { S.faults source.old ≤ S.faults source.new }
    ensures failed { result.cut ≡ Cut.Failed → Rose (S.faults source.old) (S.faults source.new) }
{
    if last.ended {
        return stopped(Cut::End, last.taken, true);
    }
    let stop = stop(last.end, last.taken, limit);
    if let Some(at) = newline_in(bytes.as_slice(), last.start, stop) {
        return cut_at(last.start, at, last.end, last.taken);
    }
    if last.taken > limit {
        return spent(last.end, last.taken);
    }
    bytes.as_mut_slice().copy_within(last.start..last.end, 0);
    gather(source, bytes, last.end - last.start, last.taken, limit)
}

/// Asks for bytes until a line is whole. It begins with the first bytes of the buffer, which have
/// no newline.
fn gather<S: Source>(
    source: &mut S,
    bytes: &mut Vec<u8>,
    first: usize,
    before: u64,
    limit: u64,
) -> Found
    requires capacity { LONGEST_LINE + ROOM ≤ vec_capacity bytes.old }
    requires limit { limit ≤ 2 ^ 40 }
    requires before { before ≤ limit }
    requires first { first ≤ vec_len bytes.old }
    requires clear { HasNoNewline (take first bytes.old.items) }
    ensures capacity { LONGEST_LINE + ROOM ≤ vec_capacity bytes.new }
    ensures cuts { FoundCuts result bytes.new.items (take first bytes.old.items) before limit false
        (S.left source.old) (S.left source.new) (S.asked source.old) (S.asked source.new) }
    ensures within { IsWithin result limit (vec_len bytes.new) }
    ensures later { S.faults source.old ≤ S.faults source.new }
    ensures failed { result.cut ≡ Cut.Failed → Rose (S.faults source.old) (S.faults source.new) }
{
    let mut end = first;
    let mut taken = before;
    'gather: while end <= LONGEST_LINE {
        let count = match ask(source, bytes, end, taken, limit) {
            Ok(count) => count,
            Err(Failed) => return stopped(Cut::Failed, taken, false),
        };
        if count == 0 {
            return last_line(end, taken);
        }
        taken += count as u64;
        let stop = stop(end + count, taken, limit);
        if let Some(at) = newline_in(bytes.as_slice(), end, stop) {
            return cut_at(0, at, end + count, taken);
        }
        end += count;
        if taken > limit {
            return spent(end, taken);
        }
    }
    pass_over(source, bytes, taken, limit)
}

/// Drops the rest of a line that is too long.
fn pass_over<S: Source>(source: &mut S, bytes: &mut Vec<u8>, before: u64, limit: u64) -> Found
    requires capacity { LONGEST_LINE + ROOM ≤ vec_capacity bytes.old }
    requires limit { limit ≤ 2 ^ 40 }
    requires before { before ≤ limit }
    ensures capacity { LONGEST_LINE + ROOM ≤ vec_capacity bytes.new }
    ensures passed { Passed result.cut (slice_range bytes.new.items result.start result.end)
        before result.taken limit result.ended (S.left source.old) (S.left source.new)
        (S.asked source.old) (S.asked source.new) }
    ensures within { IsWithin result limit (vec_len bytes.new) }
    ensures later { S.faults source.old ≤ S.faults source.new }
    ensures failed { result.cut ≡ Cut.Failed → Rose (S.faults source.old) (S.faults source.new) }
{
    let mut taken = before;
    'pass: loop {
        let count = match ask(source, bytes, 0, taken, limit) {
            Ok(count) => count,
            Err(Failed) => return stopped(Cut::Failed, taken, false),
        };
        if count == 0 {
            return stopped(Cut::TooLong, taken, true);
        }
        taken += count as u64;
        let stop = stop(count, taken, limit);
        if let Some(at) = newline_in(bytes.as_slice(), 0, stop) {
            return Found {
                cut: Cut::TooLong,
                line_start: 0,
                line_end: 0,
                start: at + 1,
                end: count,
                taken,
                ended: false,
            };
        }
        if taken > limit {
            return spent(count, taken);
        }
    }
}

/// The place of the first newline in a part of the buffer.
fn newline_in(bytes: &[u8], from: usize, to: usize) -> Option<usize>
    requires order { from ≤ to }
    requires within { to ≤ length bytes.now }
    ensures { MatchOption result (HasNoNewline (slice_range bytes.now from to))
        (λ at. (from ≤ at) × (at < to) × HasNoNewline (slice_range bytes.now from at)
        × (slice_index bytes.now at ≡ 10)) }
{
    match memchr::memchr(b'\n', &bytes[from..to]) {
        Some(at) => Some(from + at),
        None => None,
    }
}

/// The end of the search for a newline: a byte beyond the limit is not searched.
fn stop(end: usize, taken: u64, limit: u64) -> usize
    requires some { taken ≤ limit + end }
    requires one { taken ≤ limit + 1 }
    ensures { result ≡ end - (taken - limit) }
{
    if taken > limit { end - 1 } else { end }
}

/// Lengthens the buffer, within its capacity, to at least so many bytes.
fn reach(bytes: &mut Vec<u8>, count: usize)
    requires { count ≤ vec_capacity bytes.old }
    ensures same { take (vec_len bytes.old) bytes.new.items ≡ bytes.old.items }
    ensures longer { vec_len bytes.old ≤ vec_len bytes.new }
    ensures reached { count ≤ vec_len bytes.new }
    ensures capacity { vec_capacity bytes.old ≤ vec_capacity bytes.new }
{
    if bytes.len() < count {
        match bytes.resize(count, 0) {
            Ok(()) => {}
            Err(_) => unreachable!(),
        }
    }
}

/// Asks the source once, for bytes at the place `end` of the buffer.
fn ask<S: Source>(
    source: &mut S,
    bytes: &mut Vec<u8>,
    end: usize,
    taken: u64,
    limit: u64,
) -> Result<usize, Failed>
    requires taken { taken ≤ limit }
    requires limit { limit ≤ 2 ^ 40 }
    requires end { end ≤ vec_len bytes.old }
    requires room { end + ROOM ≤ vec_capacity bytes.old }
    ensures bound { IfOk result (λ n. n ≤ min 65536 (limit + 1 - taken)) }
    ensures size { IfOk result (λ n. end + n ≤ vec_len bytes.new) }
    ensures longer { vec_len bytes.old ≤ vec_len bytes.new }
    ensures capacity { vec_capacity bytes.old ≤ vec_capacity bytes.new }
    ensures front { take end bytes.new.items ≡ take end bytes.old.items }
    ensures came { IfOk result (λ n. Consumes (S.left source.old) (S.left source.new)
        (slice_range bytes.new.items end (end + n))) }
    ensures last { IfOk result (λ n. n ≡ 0 → IsAtEnd (S.left source.new)) }
    ensures kept { OnErr result (Keeps (S.left source.old) (S.left source.new)) }
    ensures call { IfOk result (λ n. AddsCall (S.asked source.old) (S.asked source.new)
        (min 65536 (limit + 1 - taken)) (slice_range bytes.new.items end (end + n))) }
    ensures call_failed { OnErr result (AddsCall (S.asked source.old) (S.asked source.new)
        (min 65536 (limit + 1 - taken)) []) }
    ensures later { S.faults source.old ≤ S.faults source.new }
    ensures failed { OnErr result (Rose (S.faults source.old) (S.faults source.new)) }
{
    let room = (limit + 1 - taken).min(ROOM as u64) as usize;
    reach(bytes, end + room);
    source.take(&mut bytes[end..end + room])
}
