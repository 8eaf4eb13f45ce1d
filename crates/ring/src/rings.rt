ghost use Rattle.std.specs.Prelude.{◌≡◌, min, false, [], ◌∷◌, ◌++◌, length, drop, if◌then◌else◌, Ok, Err};
ghost use Rattle.std.specs.List.{slice_get};
ghost use Rattle.ring.specs.Queue.{usable, beyond, ring_capacity, ring_elements, has_room};

use crate::cursors::Cursor;

/// A queue in lent slots: the first `MOST` of them, or all if there are fewer. The slots behind those are left alone.
///
/// It has no invariant, so a ring can be held by value anywhere.
#[derive(Drop)]
pub struct Ring<'a, T, const MOST: usize> {
    slots: &'a mut [T],
    cursor: Cursor,
}

impl<'a, T: Copy, const MOST: usize> Ring<'a, T, MOST> {
    /// An empty ring over the slots.
    pub fn new(slots: &'a mut [T]) -> Ring<'a, T, MOST>
        ensures value { ring_elements result ≡ [] }
        ensures same { result.slots.now ≡ slots.old }
    {
        Ring {
            slots,
            cursor: Cursor::empty(),
        }
    }

    /// How many elements it can hold.
    pub fn capacity(&self) -> usize
        ensures value { result ≡ ring_capacity self.now }
    {
        MOST.min(self.slots.len())
    }

    /// The slots that it uses.
    fn usable(&self) -> &[T]
        ensures value { result.now ≡ usable self.now }
    {
        &self.slots[..self.capacity()]
    }

    /// How many elements it holds.
    pub fn len(&self) -> usize
        ensures value { result ≡ length (ring_elements self.now) }
        ensures within { result ≡ min self.now.cursor.len (ring_capacity self.now) }
    {
        self.cursor.len(self.usable())
    }

    /// Puts the element behind all others, or hands it back if every slot is used.
    pub fn push(&mut self, element: T) -> Result<(), T>
        ensures value { result ≡ (if has_room self.old then Ok tt else Err element) }
        ensures after { ring_elements self.new ≡ (if has_room self.old then ring_elements self.old ++ element ∷ [] else ring_elements self.old) }
        ensures same { has_room self.old ≡ false → self.new ≡ self.old }
        ensures room { ring_capacity self.new ≡ ring_capacity self.old }
        ensures lender { self.new.slots.ghost_name ≡ self.old.slots.ghost_name }
        ensures beyond { beyond self.new ≡ beyond self.old }
    {
        let places = self.capacity();
        self.cursor.push(&mut self.slots[..places], element)
    }

    /// Takes out the oldest element.
    pub fn pop(&mut self) -> Option<T>
        ensures value { result ≡ slice_get (ring_elements self.old) 0 }
        ensures after { ring_elements self.new ≡ drop 1 (ring_elements self.old) }
        ensures same { self.new.slots ≡ self.old.slots }
    {
        // A copy moves on while the slots are read: both lie behind `self`.
        let mut cursor = self.cursor;
        let oldest = cursor.pop(self.usable());
        self.cursor = cursor;
        oldest
    }

    /// The `i`-th element, counted from the oldest.
    pub fn get(&self, i: usize) -> Option<T>
        ensures value { result ≡ slice_get (ring_elements self.now) i }
    {
        self.cursor.get(self.usable(), i)
    }
}
