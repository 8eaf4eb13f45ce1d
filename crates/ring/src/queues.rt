ghost use Rattle.std.specs.Prelude.{◌≡◌, [], ◌∷◌, ◌++◌, length, drop, nat_lt, if◌then◌else◌, Ok, Err};
ghost use Rattle.std.specs.List.{slice_get};

use crate::cursors::Cursor;
use std::marker::Model;

/// A queue in slots of its own, for where nobody lends it any: at most `MOST` elements. Contracts see the elements.
#[derive(Drop)]
pub struct Queue<T: Copy, const MOST: usize> {
    slots: [T; MOST],
    cursor: Cursor,
}

impl<T: Copy, const MOST: usize> Model for Queue<T, MOST> {
    ghost use Rattle.std.specs.Prelude.{List};
    ghost use Rattle.ring.specs.Queue.{elements};

    ghost Value = { List T };

    ghost view = { λ q. elements q.slots q.cursor };
}

impl<T: Copy, const MOST: usize> Queue<T, MOST> {
    /// An empty queue, its slots filled with anything.
    pub fn new(filler: T) -> Self
        ensures value { result ≡ [] }
    {
        Queue {
            slots: [filler; MOST],
            cursor: Cursor::empty(),
        }
    }

    /// How many elements it holds.
    pub fn len(&self) -> usize
        ensures value { result ≡ length self.now }
    {
        self.cursor.len(&self.slots)
    }

    /// Puts the element behind all others, or hands it back if every slot is used.
    pub fn push(&mut self, element: T) -> Result<(), T>
        ensures value { result ≡ (if nat_lt (length self.old) MOST then Ok tt else Err element) }
        ensures after { self.new ≡ (if nat_lt (length self.old) MOST then self.old ++ element ∷ [] else self.old) }
    {
        self.cursor.push(&mut self.slots, element)
    }

    /// Takes out the oldest element.
    pub fn pop(&mut self) -> Option<T>
        ensures value { result ≡ slice_get self.old 0 }
        ensures after { self.new ≡ drop 1 self.old }
    {
        self.cursor.pop(&self.slots)
    }

    /// The `i`-th element, counted from the oldest.
    pub fn get(&self, i: usize) -> Option<T>
        ensures value { result ≡ slice_get self.now i }
    {
        self.cursor.get(&self.slots, i)
    }
}
