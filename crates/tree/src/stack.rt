// A stack over the caller's memory, for entries of any kind. Memory with a length beside it stands here alone.
ghost use Rattle.std.specs.Prelude.{◌≤◌, length};

mod calls;

#[derive(Drop)]
pub struct Stack<'a, T> {
    memory: &'a mut [T],
    len: usize,
    ghost within: { len ≤ length memory.now },
}

// Less memory is left than so many entries need.
#[derive(Clone, Copy, Debug, PartialEq, Eq)]
pub struct NoRoom;
