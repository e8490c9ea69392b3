//! The unused part of a data file.
ghost use Rattle.std.specs.Prelude.{◌≡◌, ◌≤◌, ◌<◌, ◌+◌, ◌⊎◌, ◌↔◌, ℕ, true, false, IfSome, IsNone};
ghost use Rattle.dav_space.specs.Ranges.{in_order, is_clear, are_rising, last_at, used_of, without, ReachLimit, KeepsClear, KeepsUnused, AreUnused, AreTaken, IsBehind};

use crate::range::{self, LIMIT, Range};
use std::alloc::Global;

/// The most rooms at a time.
const MAX_ROOMS: usize = 64;

/// The ranges of a data file that no block uses. A block is written at the beginning of the current range. A
/// block that grows may have a room: an unused range behind it, in which no other block is written.
#[derive(Debug, Drop)]
pub struct Space {
    /// The rooms, in ascending order.
    rooms: Vec<Range>,
    /// The range to use next, which is behind the rooms.
    current: Range,
    /// The ranges behind it, in descending order.
    later: Vec<Range>,
    ghost rising: { are_rising 0 (in_order rooms.items current later.items) ≡ true },
    ghost whole: { ReachLimit (in_order rooms.items current later.items) },
}

impl Space {
    ghost use Rattle.dav_space.specs.Space.{unused, next_len, room_at, room_len, limited, AreNext, IsRoom, HasNoRoom, IsFull, MakesRoom, MakesNoRoom};

    /// Creates the space of a data file that is in use up to a place, and unused after it.
    pub fn behind(alloc: Global, at: usize) -> Space
        requires { at ≤ LIMIT }
        ensures used { (a n : ℕ) → a + n ≤ at → is_clear (unused result) a n ≡ true }
        ensures rest { (i : ℕ) → at ≤ i → i < LIMIT → is_clear (unused result) i 1 ≡ false }
    {
        Space {
            rooms: Vec::new(alloc),
            current: Range { at, end: LIMIT },
            later: Vec::new(alloc),
        }
    }

    /// Creates the space of these ranges, which are in ascending order and reach the limit.
    pub(crate) fn from_gaps(alloc: Global, mut gaps: Vec<Range>) -> Space
        requires rising { are_rising 0 gaps.items ≡ true }
        requires whole { ReachLimit gaps.items }
        ensures { unused result ≡ gaps.items }
    {
        gaps.reverse();
        let current = gaps.pop().unwrap();
        Space {
            rooms: Vec::new(alloc),
            current,
            later: gaps,
        }
    }

    /// Returns the place behind which nothing is in use.
    pub fn end(&self) -> usize
        ensures place { result ≡ last_at 0 (unused self.now) }
        ensures behind { IsBehind result (unused self.now) }
    {
        match self.later.first() {
            Some(last) => last.at,
            None => self.current.at,
        }
    }

    /// Returns how many bytes before the end are in use.
    pub fn used(&self) -> usize
        ensures { result ≡ used_of (unused self.now) }
    {
        let used = range::less(self.end(), &self.rooms);
        if self.later.is_empty() {
            return used;
        }
        let used = range::less(used, &[self.current]);
        range::less(used, &self.later[1..])
    }

    /// Returns the place of the next bytes to use, and how many of `n` there are in one run.
    pub fn next(&mut self, n: usize) -> (usize, usize)
        ensures most { result.1 ≤ n }
        ensures whole { result.1 ≡ next_len n self.new }
        ensures some { result.1 ≡ 0 → (n ≡ 0) ⊎ IsFull self.new }
        ensures next { AreNext result.0 result.1 self.new }
        ensures below { result.0 + result.1 ≤ LIMIT }
        ensures unused { AreUnused result.0 result.1 (unused self.new) }
        ensures kept { KeepsClear (unused self.old) (unused self.new) }
        ensures rest { KeepsUnused (unused self.old) (unused self.new) }
    {
        self.go_on();
        let Range { at, end } = self.current;
        (at, n.min(end - at))
    }

    /// Goes on to the first later range that is not empty, if the current one is.
    fn go_on(&mut self)
        ensures some { (self.new.current.at < self.new.current.end) ⊎ IsFull self.new }
        ensures kept { KeepsClear (unused self.old) (unused self.new) }
        ensures rest { KeepsUnused (unused self.old) (unused self.new) }
    {
        while self.current.at == self.current.end {
            let Some(range) = self.later.pop() else {
                return;
            };
            self.current = range;
        }
    }

    /// Takes the next `n` bytes into use.
    pub fn take_next(&mut self, n: usize)
        requires { AreNext self.old.current.at n self.old }
        ensures taken { AreTaken self.old.current.at n (unused self.old) (unused self.new) }
        ensures rest { self.new.current ≡ without n self.old.current }
    {
        self.current.take(n);
    }

    /// Makes a room of the next bytes, at most `n`, for the block that ends there. If there are too many rooms
    /// then, the one with the lowest place is given up. Nothing changes if the room would be empty, or if
    /// memory runs out.
    pub fn make_room(&mut self, n: usize)
        ensures made { MakesRoom n self.old self.new ⊎ MakesNoRoom n self.old self.new }
        ensures kept { KeepsClear (unused self.old) (unused self.new) }
    {
        let Range { at, end } = self.current;
        let len = n.min(end - at);
        if len == 0 {
            return;
        }
        let room = Range { at, end: at + len };
        if self.rooms.push(room).is_ok() {
            self.current.take(len);
            self.limit_rooms();
        }
    }

    /// Gives up the room with the lowest place, if there are too many rooms.
    fn limit_rooms(&mut self)
        ensures rooms { self.new.rooms.items ≡ limited self.old.rooms.items }
        ensures current { self.new.current ≡ self.old.current }
        ensures later { self.new.later.items ≡ self.old.later.items }
        ensures kept { KeepsClear (unused self.old) (unused self.new) }
    {
        if self.rooms.len() > MAX_ROOMS {
            self.rooms.remove(0);
        }
    }

    /// Returns the number of the room that begins at a place, and how many of `n` bytes it has. An empty
    /// room does not count.
    pub fn room(&self, at: usize, n: usize) -> Option<(usize, usize)>
        ensures room { IfSome result (λ room. IsRoom room.0 at room.1 self.now) }
        ensures below { IfSome result (λ room. at + room.1 ≤ LIMIT) }
        ensures most { IfSome result (λ room. room.1 ≤ n) }
        ensures whole { IfSome result (λ room. room.1 ≡ room_len n room.0 self.now) }
        ensures some { IfSome result (λ room. IsRoom room.0 at 1 self.now) }
        ensures none { IsNone result ↔ HasNoRoom at self.now }
        ensures unused { IfSome result (λ room. AreUnused at room.1 (unused self.now)) }
    {
        for (number, room) in self.rooms.iter().enumerate() {
            if room.at == at && at < room.end {
                return Some((number, n.min(room.end - at)));
            }
        }
        None
    }

    /// Takes the first `n` bytes of a room into use.
    pub fn take_room(&mut self, number: usize, n: usize)
        requires { IsRoom number (room_at number self.old) n self.old }
        ensures { AreTaken (room_at number self.old) n (unused self.old) (unused self.new) }
    {
        self.rooms[number].take(n);
    }
}
