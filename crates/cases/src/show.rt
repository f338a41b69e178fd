// The output: a byte, a text, a number.
ghost use Rattle.std.specs.Prelude.{◌<◌};
ghost use Rattle.cases.specs.declared.TheConstants.{BUFFER};

use crate::BUFFER;
use crate::values::Value;

// The output's buffer, which is filled up to `to`; once it is full, it is written.
#[derive(Drop)]
pub struct Page {
    buffer: [u8; BUFFER],
    to: usize,
    ghost has_room: { to < BUFFER },
}

impl Page {
    // Internal: a page with nothing on it.
    pub fn new() -> Page {
        Page {
            buffer: [0; BUFFER],
            to: 0,
        }
    }

    // Internal: a byte; a full buffer is written.
    pub fn put_byte(&mut self, b: u8) {
        self.buffer[self.to] = b;
        self.to += 1;
        if self.to == BUFFER {
            io::write_all(1, &self.buffer);
            self.to = 0;
        }
    }

    // Internal: a text.
    pub fn put(&mut self, text: &[u8]) {
        for b in text {
            self.put_byte(*b);
        }
    }

    // Internal: a number in decimal.
    pub fn put_decimal(&mut self, n: u64) {
        let mut text = [0; 20];
        let k = io::decimal(n, &mut text);
        self.put(&text[..k]);
    }

    // Internal: a number of a case.
    pub fn put_number<V: Value>(&mut self, number: V) {
        number.put(self);
    }

    // Internal: a space and a number.
    pub fn put_next<V: Value>(&mut self, number: V) {
        self.put_byte(b' ');
        self.put_number(number);
    }

    // Internal: the first two fields of most answers.
    pub fn put_verdict(&mut self, code: u8, at: usize) {
        self.put_number(code);
        self.put_next(at);
    }

    // Internal: writes what has not been written yet.
    pub fn flush(&mut self) {
        io::write_all(1, &self.buffer[..self.to]);
        self.to = 0;
    }
}
