// Lines and words of a paper.
ghost use Rattle.std.specs.Prelude.{◌≡◌, ◌≢◌, ◌<◌, ◌≤◌, ◌∷◌, ◌++◌, length, slice_index, EachIndex, MatchOption, OnSome};
ghost use Rattle.std.specs.Iterator.{at_most};

use std::alloc::{AllocError, Global};

const LINE_END: u8 = b'\n';

const SPACE: u8 = b' ';

// What stands before the first `byte`, and what stands after it; none where there is no such byte.
pub(crate) fn split_once(text: &[u8], byte: u8) -> Option<(&[u8], &[u8])>
    ensures { MatchOption result (EachIndex text.now (λ k. slice_index text.now k ≢ byte)) (λ parts. (text.now ≡ parts.0.now ++ byte ∷ parts.1.now) × EachIndex parts.0.now (λ k. slice_index parts.0.now k ≢ byte)) }
{
    let at = text.iter().position(|b| *b == byte)?;
    Some((&text[..at], &text[at + 1..]))
}

// The lines of a text, in order.
#[derive(Drop)]
pub struct Lines<'a> {
    rest: &'a [u8],
    // How many lines were read.
    pub read: usize,
}

impl<'a> Lines<'a> {
    pub(crate) fn new(text: &'a [u8]) -> Lines<'a> {
        Lines {
            rest: text,
            read: 0,
        }
    }

    // The text up to a line that is just `end`, each line with its end; none where no such line follows.
    pub(crate) fn until_end(&mut self) -> Option<&'a [u8]>
        ensures { length self.new.rest.now ≤ length self.old.rest.now }
    {
        let text = self.rest;
        let mut passed = 0;
        while let Some(line) = self.next() {
            if line == b"end".as_slice() {
                return Some(&text[..passed]);
            }
            passed = text.len() - self.rest.len();
        }
        None
    }
}

impl<'a> Iterator for Lines<'a> {
    type Item = &'a [u8];

    // None only where no line is left.
    ghost next_gives = { λ s line t. MatchOption line (length t.rest.now ≡ 0) (λ _. length t.rest.now < length s.rest.now) };

    ghost remaining = { λ s. at_most (length s.rest.now) };

    fn next(&mut self) -> Option<&'a [u8]> {
        if self.rest.is_empty() {
            return None;
        }
        let (line, rest) = split_once(self.rest, LINE_END).unwrap_or((self.rest, &[]));
        self.rest = rest;
        self.read = self.read.saturating_add(1);
        Some(line)
    }
}

// The words of a line, in order.
#[derive(Clone, Copy)]
pub struct Words<'a> {
    rest: &'a [u8],
}

impl<'a> Words<'a> {
    pub(crate) fn new(line: &'a [u8]) -> Words<'a> {
        Words { rest: line }
    }

    // Takes the next word if the test passes it.
    pub(crate) fn next_if<F: FnOnce(&[u8]) -> bool>(&mut self, test: F) -> Option<&'a [u8]>
        requires { F.IsAlwaysCallable test }
        ensures { OnSome result (length self.new.rest.now < length self.old.rest.now) }
    {
        let mut ahead = *self;
        let word = ahead.next()?;
        if !test(word) {
            return None;
        }
        *self = ahead;
        Some(word)
    }
}

impl<'a> Iterator for Words<'a> {
    type Item = &'a [u8];

    ghost remaining = { λ s. at_most (length s.rest.now) };

    fn next(&mut self) -> Option<&'a [u8]> {
        let start = self.rest.iter().position(|b| *b != SPACE)?;
        let front = &self.rest[start..];
        let (word, rest) = split_once(front, SPACE).unwrap_or((front, &[]));
        self.rest = rest;
        Some(word)
    }
}

// The line's words with one space between them.
pub(crate) fn single_spaced(heap: Global, line: &[u8]) -> Result<Vec<u8>, AllocError> {
    let mut all = Vec::new(heap);
    for word in Words::new(line) {
        if !all.is_empty() {
            all.push(SPACE)?;
        }
        all.extend_from_slice(word)?;
    }
    Ok(all)
}
