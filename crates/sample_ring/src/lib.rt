//! The newest items of a sequence, in a ring of fixed room: the window of the filtered values under the
//! sliding sums, and the remembered voltages.
//!
//! A clause sees a `History` as the list of its items, the oldest first, and its capacity. Items are
//! read only by `push`, which answers the one that leaves, and by `back`. Each of these calls counts
//! one step, so that a caller's count bounds how often it looks at its window. It stands on
//! `circular_buffer` for the ring and on `relay_num` for the steps.
#![tactic(auto)]

ghost use Rattle.std.specs.Prelude.{◌≡◌, ◌+◌, ◌<◌, [], ◌∷◌, ◌++◌, length, slice_get, if◌then◌else◌, nat_lt, IfOk};
ghost use Rattle.circular_buffer.specs.Buffer.{buffer, keep_last};
ghost use Rattle.sample_ring.specs.History.{item_behind};

use circular_buffer::HeapCircularBuffer;
use relay_num::{NoMemory, Steps};
use std::alloc::Global;
use std::marker::Model;
use std::sync::ledger::Ledger;

#[cfg(test)]
mod tests;

/// The newest items of a sequence, at most as many as its capacity.
#[derive(Drop)]
pub struct History<T: Copy> {
    ring: HeapCircularBuffer<T>,
}

impl<T: Copy> Model for History<T> {
    ghost use Rattle.std.specs.Prelude.{◌<◌};
    ghost use Rattle.circular_buffer.specs.Buffer.{Buffer, buffer_code};

    ghost Value = { Buffer T };

    ghost coded = { buffer_code T.code };

    ghost view = { λ h. h.ring };

    ghost invariant = { λ h. 0 < h.ring.capacity };
}

impl<T: Copy> History<T> {
    /// An empty history that keeps the newest `capacity` items, of which there is at least one.
    /// `NoMemory` comes where the allocator has no room for them.
    pub fn new(alloc: Global, capacity: usize) -> Result<History<T>, NoMemory>
        requires { 0 < capacity }
        ensures { IfOk result (λ h. h ≡ buffer [] capacity) }
    {
        match HeapCircularBuffer::with_capacity(alloc, capacity) {
            Ok(ring) => Ok(History { ring }),
            Err(_) => Err(NoMemory),
        }
    }

    /// Appends `x`. A full history gives up its oldest item, which is answered; None comes exactly
    /// where it was not full. One step.
    pub fn push<L: Ledger>(&mut self, x: T, steps: &mut Steps<L>) -> Option<T>
        ensures items { self.new ≡ buffer (keep_last self.old.capacity (self.old.items ++ x ∷ [])) self.old.capacity }
        ensures oldest { result ≡ (if nat_lt (length self.old.items) self.old.capacity then None else slice_get self.old.items 0) }
        ensures cost { steps.new ≡ steps.old + 1 }
    {
        steps.tick();
        self.ring.push_back(x)
    }

    /// The item `i` places behind the newest, which is at 0. None comes exactly where there are no
    /// more than `i` items. One step.
    pub fn back<L: Ledger>(&self, i: usize, steps: &mut Steps<L>) -> Option<T>
        ensures item { result ≡ item_behind self.now.items i }
        ensures cost { steps.new ≡ steps.old + 1 }
    {
        steps.tick();
        self.ring.nth_back(i).copied()
    }

    /// Forgets all items. The capacity stays.
    pub fn clear(&mut self)
        ensures { self.new ≡ buffer [] self.old.capacity }
    {
        self.ring.clear();
    }
}
