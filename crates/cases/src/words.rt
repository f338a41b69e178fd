// The words of the input.
ghost use Rattle.std.specs.Prelude.{◌≤◌, IfOk};
ghost use Rattle.cases.specs.declared.TheConstants.{BUFFER};

use crate::BUFFER;
use crate::values::Value;
use std::num::TryFromIntError;

// Something is missing in the input, or does not fit.
#[derive(Clone, Copy, Debug, PartialEq, Eq)]
pub struct BadCase;

impl From<TryFromIntError> for BadCase {
    fn from(_e: TryFromIntError) -> BadCase {
        BadCase
    }
}

// The input, and how far it has come: its buffer is unread from `at` to `end`.
#[derive(Clone, Copy)]
pub struct Words {
    buffer: [u8; BUFFER],
    at: usize,
    end: usize,
    ghost in_order: { at ≤ end },
    ghost in_buffer: { end ≤ BUFFER },
}

impl Words {
    // Internal: the input, of which nothing is read yet.
    pub fn new() -> Words {
        Words {
            buffer: [0; BUFFER],
            at: 0,
            end: 0,
        }
    }

    // Once the buffer is read, it is filled anew. A read that fails ends the input.
    fn refill(&mut self) {
        if self.at < self.end {
            return;
        }
        self.at = 0;
        self.end = io::read_full(0, &mut self.buffer);
    }

    // Internal: whether all of the input was read.
    pub fn is_at_end(&mut self) -> bool {
        self.refill();
        self.at == self.end
    }

    // Little end first. Only at the end of the input are fewer than eight bytes left.
    fn next(&mut self) -> Result<u64, BadCase> {
        self.refill();
        let unread = &self.buffer[self.at..self.end];
        let word = *unread.first_chunk::<8>().ok_or(BadCase)?;
        self.at += 8;
        Ok(u64::from_le_bytes(word))
    }

    // Internal: the next number.
    pub fn read<V: Value>(&mut self) -> Result<V, BadCase> {
        V::of_word(self.next()?)
    }

    // Internal: the next number, where it is at most `most`.
    pub fn read_within(&mut self, most: usize) -> Result<usize, BadCase>
        ensures { IfOk result (λ n. n ≤ most) }
    {
        let n = self.read()?;
        if most < n { Err(BadCase) } else { Ok(n) }
    }
}
