// What can be done with a stack.
ghost use Rattle.tree.specs.Stacks.{held, beyond, capacity, Pushed, Popped, PushedAll};
ghost use Rattle.std.specs.Prelude.{◌≡◌, ◌<◌, [], reverse, length, MatchOption, MatchResult};

use super::{NoRoom, Stack};

impl<'a, T: Copy> Stack<'a, T> {
    // An empty stack over all of the memory.
    pub fn new(memory: &'a mut [T]) -> Stack<'a, T>
        ensures entries { held result ≡ [] }
        ensures untouched { beyond result ≡ memory.old }
    {
        Stack { memory, len: 0 }
    }

    // One entry more, or that entry back where no memory is left.
    pub fn push(&mut self, entry: T) -> Result<(), T>
        ensures fits { length (held self.old) < capacity self.old → Pushed self.old entry self.new }
        ensures answer { MatchResult result (λ _. Pushed self.old entry self.new) (λ e. (e ≡ entry) × (beyond self.old ≡ []) × (self.new ≡ self.old)) }
    {
        if self.len >= self.memory.len() {
            return Err(entry);
        }
        self.memory[self.len] = entry;
        self.len += 1;
        Ok(())
    }

    // Takes the newest entry.
    pub fn pop(&mut self) -> Option<T>
        ensures { MatchOption result ((held self.old ≡ []) × (self.new ≡ self.old)) (λ e. Popped self.old e self.new) }
    {
        if self.len == 0 {
            return None;
        }
        self.len -= 1;
        Some(self.memory[self.len])
    }

    // The entries in turn, or none of them where too little memory is left.
    pub fn push_all(&mut self, entries: &[T]) -> Result<(), NoRoom>
        ensures { MatchResult result (λ _. PushedAll self.old entries.now self.new) (λ _. (length (beyond self.old) < length entries.now) × (self.new ≡ self.old)) }
    {
        let room = self.room();
        if entries.len() > room {
            return Err(NoRoom);
        }
        let end = self.len + entries.len();
        self.memory[self.len..end].copy_from_slice(entries);
        self.len = end;
        Ok(())
    }

    // The entries, the oldest first.
    pub fn as_slice(&self) -> &[T]
        ensures { result.now ≡ reverse (held self.now) }
    {
        &self.memory[0..self.len]
    }

    // How many entries there is memory for beyond these.
    pub fn room(&self) -> usize
        ensures { result ≡ length (beyond self.now) }
    {
        self.memory.len() - self.len
    }
}
