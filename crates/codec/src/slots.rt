// Slots of a lent array one behind the other: in each some numbers, the lead, and some numbers more. Where the lead is 0, the
// slot is unused and all of it is 0.
ghost use Rattle.std.specs.Prelude.{◌≡◌, true, suc, ◌+◌, ◌*◌, ◌^◌, ◌≤◌, ◌<◌, length};
ghost use Rattle.std.specs.Slice.Iter.{chunks_exact_rest, chunks_exact_size};
ghost use Rattle.laws.specs.Splice.{splice};
ghost use Rattle.codec.specs.Numbers.{bytes_of, part};
ghost use Rattle.codec.specs.Slots.{slot, slots};
ghost use Rattle.codec.specs.Stored.{place_of, Stored, ZeroFrom};

use crate::number::{field, number_size, write_number};
use crate::numbers::{numbers_size, numbers_zero, read_numbers, write_numbers};
use std::slice::ChunksExact;

// How many numbers a slot has before its lead, and how many after it.
#[derive(Clone, Copy)]
pub struct Slot {
    pub before: usize,
    pub after: usize,
}

// Kept: how many numbers a slot has, in each method below. With a struct `one.size(slot)` is `One { slot: one, numbers: slot }.size()`, and the
// length is proved there as it is now (d).
impl Slot {
    // Where the slot that begins at a place ends.
    fn end(self, first: usize) -> usize
        requires { first + (self.before + suc self.after) < 2 ^ 64 }
        ensures { result ≡ first + (self.before + suc self.after) }
    {
        first + self.before + 1 + self.after
    }

    // The first slots, k of them. Where k is 0, the width may be past 64 bits.
    fn slots_of(self, xs: &[u64], k: usize) -> ChunksExact<'_, u64>
        requires { (self.before + suc self.after) * k ≤ length xs.now }
        ensures rest { chunks_exact_rest result ≡ part xs.now 0 ((self.before + suc self.after) * k) }
        ensures size { 0 < k → chunks_exact_size result ≡ self.before + suc self.after }
        ensures positive { 0 < chunks_exact_size result }
    {
        let width = self.before.saturating_add(self.after).saturating_add(1);
        xs[..width * k].chunks_exact(width)
    }

    // One slot from bytes into zeros.
    fn read(self, bytes: &[u8], start: usize, out: &mut [u64]) -> Option<usize>
        requires { (length out.old ≡ self.before + suc self.after) × ZeroFrom 0 out.old }
        ensures value { result ≡ place_of ((slot (2 ^ 64) self.before self.after).read bytes.now start) }
        ensures stored { Stored ((slot (2 ^ 64) self.before self.after).read bytes.now start) out.old 0 out.new }
    {
        let number = field::<u64>(bytes, start)?;
        if number.value == 0 {
            return Some(number.next);
        }
        let behind = read_numbers(bytes, number.next, &mut out[..self.before])?;
        out[self.before] = number.value;
        read_numbers(bytes, behind, &mut out[self.before + 1..])
    }

    // A slot that isn't used is zero.
    fn tidy(self, xs: &[u64]) -> bool
        requires { length xs.now ≡ self.before + suc self.after }
        ensures { result ≡ (slot (2 ^ 64) self.before self.after).tidy xs.now }
    {
        xs[self.before] != 0 || numbers_zero(xs)
    }

    // How many bytes a slot takes.
    fn size(self, xs: &[u64]) -> usize
        requires { (length xs.now ≡ self.before + suc self.after) × (length xs.now ≤ 65536) }
        ensures { result ≡ length (bytes_of ((slot (2 ^ 64) self.before self.after).fields xs.now)) }
    {
        let lead = xs[self.before];
        if lead == 0 {
            return 1;
        }
        number_size(lead) + numbers_size(&xs[..self.before]) + numbers_size(&xs[self.before + 1..])
    }

    // A slot's bytes are written from a place on. The place behind them.
    fn write(self, out: &mut [u8], at: usize, xs: &[u64]) -> usize
        requires wide { length xs.now ≡ self.before + suc self.after }
        requires fits { at + length (bytes_of ((slot (2 ^ 64) self.before self.after).fields xs.now)) ≤ length out.old }
        ensures value { result ≡ at + length (bytes_of ((slot (2 ^ 64) self.before self.after).fields xs.now)) }
        ensures out_after { out.new ≡ splice out.old at (bytes_of ((slot (2 ^ 64) self.before self.after).fields xs.now)) }
    {
        let lead = xs[self.before];
        let place = write_number(out, at, lead);
        if 0 < lead {
            let behind = write_numbers(out, place, &xs[..self.before]);
            return write_numbers(out, behind, &xs[self.before + 1..]);
        }
        place
    }
}

// Kept: k and one stand beside the numbers here and below, since a caller's may be more than those of k slots. With a struct
// `slots_tidy(&r[place..], STREAK, NODES)` is `Slots { numbers: &r[place..], one: STREAK, k: NODES }.tidy()`, in each of six calls, and the
// room is proved there as it is now (d).
// Kept: four functions. Each is a loop around one call, of read, tidy, size or write: one for all would take that call as a closure, which reads or
// writes lent bytes, adds a number, or ends the loop early (d).

// Slots, k of them, from bytes into an array that is zero.
pub fn read_slots(bytes: &[u8], start: usize, out: &mut [u64], one: Slot, k: usize) -> Option<usize>
    requires { ((one.before + suc one.after) * k ≤ length out.old) × ZeroFrom 0 out.old }
    ensures value { result ≡ place_of ((slots (2 ^ 64) one.before one.after k).read bytes.now start) }
    ensures stored { Stored ((slots (2 ^ 64) one.before one.after k).read bytes.now start) out.old 0 out.new }
{
    let mut at = start;
    let mut first: usize = 0;
    // Kept: a loop over places. With chunks_exact_mut each part is read, but the proof has no name for what the array then holds as a whole (c).
    for _n in 0..k {
        let end = one.end(first);
        at = one.read(bytes, at, &mut out[first..end])?;
        first = end;
    }
    Some(at)
}

// Every slot that isn't used is zero.
pub fn slots_tidy(xs: &[u64], one: Slot, k: usize) -> bool
    requires { (one.before + suc one.after) * k ≤ length xs.now }
    ensures { result ≡ (slots (2 ^ 64) one.before one.after k).tidy (part xs.now 0 ((one.before + suc one.after) * k)) }
{
    for slot in one.slots_of(xs, k) {
        if !one.tidy(slot) {
            return false;
        }
    }
    true
}

// How many bytes slots take.
pub fn slots_size(xs: &[u64], one: Slot, k: usize) -> usize
    requires { ((one.before + suc one.after) * k ≤ length xs.now) × (length xs.now ≤ 65536) }
    ensures { result ≡ length (bytes_of ((slots (2 ^ 64) one.before one.after k).fields (part xs.now 0 ((one.before + suc one.after) * k)))) }
{
    let mut size: usize = 0;
    for slot in one.slots_of(xs, k) {
        size += one.size(slot);
    }
    size
}

// The bytes of slots.
pub fn write_slots(out: &mut [u8], at: usize, xs: &[u64], one: Slot, k: usize) -> usize
    requires in_bounds { (one.before + suc one.after) * k ≤ length xs.now }
    requires fits { at + length (bytes_of ((slots (2 ^ 64) one.before one.after k).fields (part xs.now 0 ((one.before + suc one.after) * k)))) ≤ length out.old }
    ensures value { result ≡ at + length (bytes_of ((slots (2 ^ 64) one.before one.after k).fields (part xs.now 0 ((one.before + suc one.after) * k)))) }
    ensures out_after { out.new ≡ splice out.old at (bytes_of ((slots (2 ^ 64) one.before one.after k).fields (part xs.now 0 ((one.before + suc one.after) * k)))) }
{
    let mut place = at;
    for slot in one.slots_of(xs, k) {
        place = one.write(out, place, slot);
    }
    place
}
