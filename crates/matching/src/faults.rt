// Why the parts of a tree cannot be found.
#[derive(Clone, Copy, Debug, PartialEq, Eq)]
pub enum PartsFault {
    // The memory is shorter than the tree; holds how many places are wanted.
    MemoryTooShort(usize),
}
