ghost use Rattle.std.specs.Prelude.{◌≡◌, ◌<◌, min, false, [], ◌∷◌, ◌++◌, length, drop, if◌then◌else◌, Ok, Err};
ghost use Rattle.std.specs.List.{slice_get};
ghost use Rattle.ring.specs.Queue.{turned_place, elements, any_free};

/// Where a queue lies in its slots, whosever they are. Taken with the slots, it is the queue.
///
/// It has no invariant: `head` and `len` mean something whatever they are, and however many slots there are.
#[derive(Clone, Copy)]
pub(crate) struct Cursor {
    /// The slot of the oldest element. Past the last slot it stands for the first.
    head: usize,
    /// How many slots are used, each behind the one before and the first behind the last. More than there are stands for all.
    len: usize,
}

impl Cursor {
    /// That of a queue that holds nothing.
    pub(crate) fn empty() -> Cursor
        ensures value { result ≡ record { head = 0; len = 0 } }
    {
        Cursor { head: 0, len: 0 }
    }

    /// How many elements the queue holds.
    #[tactic(auto, using(crate::proofs::Turned::how_many))]
    pub(crate) fn len<T>(self, slots: &[T]) -> usize
        ensures value { result ≡ length (elements slots.now self) }
        ensures within { result ≡ min self.len (length slots.now) }
    {
        self.len.min(slots.len())
    }

    /// The slot that is `i` places behind the head.
    fn slot<T>(self, slots: &[T], i: usize) -> usize
        ensures value { result ≡ turned_place (length slots.now) self.head i }
        ensures inside { i < length slots.now → result < length slots.now }
    {
        let to_the_end = slots.len().saturating_sub(self.head);
        if i < to_the_end {
            self.head + i
        } else {
            i - to_the_end
        }
    }

    /// Puts the element behind all others, or hands it back if every slot is used.
    pub(crate) fn push<T: Copy>(&mut self, slots: &mut [T], element: T) -> Result<(), T>
        ensures value { result ≡ (if any_free slots.old self.old then Ok tt else Err element) }
        ensures after { elements slots.new self.new ≡ (if any_free slots.old self.old then elements slots.old self.old ++ element ∷ [] else elements slots.old self.old) }
        ensures same { any_free slots.old self.old ≡ false → (slots.new ≡ slots.old) × (self.new ≡ self.old) }
    {
        let len = self.len(slots);
        if len == slots.len() {
            return Err(element);
        }
        let at = self.slot(slots, len);
        slots[at] = element;
        self.len = len + 1;
        Ok(())
    }

    /// Takes out the oldest element.
    pub(crate) fn pop<T: Copy>(&mut self, slots: &[T]) -> Option<T>
        ensures value { result ≡ slice_get (elements slots.now self.old) 0 }
        ensures after { elements slots.now self.new ≡ drop 1 (elements slots.now self.old) }
    {
        let len = self.len(slots);
        if len == 0 {
            return None;
        }
        let oldest = self.slot(slots, 0);
        self.head = oldest + 1;
        self.len = len - 1;
        Some(slots[oldest])
    }

    /// The `i`-th element, counted from the oldest.
    pub(crate) fn get<T: Copy>(self, slots: &[T], i: usize) -> Option<T>
        ensures value { result ≡ slice_get (elements slots.now self) i }
    {
        if i >= self.len(slots) {
            return None;
        }
        Some(slots[self.slot(slots, i)])
    }
}
