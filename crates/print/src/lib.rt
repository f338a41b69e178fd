// Text written into a lent buffer that has room for it: words, numbers, and lines of a key and a value.
#![tactic(auto)]

ghost use Rattle.std.specs.Prelude.{◌≡◌, List, ℕ, length};
ghost use Rattle.lines.specs.Text.{decimal, hex, signed};
ghost use Rattle.print.specs.Puts.{line_of};
ghost use Rattle.print.specs.Wrote.{HasRoom, Wrote};

// Internal: a lent buffer that is written from the start on, and how far it is.
#[derive(Drop)]
pub struct Page<'a> {
    pub out: &'a mut [u8],
    pub at: usize,
}

impl<'a> Page<'a> {
    // Internal: a text after what is written. By a loop: the library's copy asks for `memmove`, which a program in C may not have.
    pub fn put(&mut self, text: &[u8])
        requires { HasRoom self.old text.now }
        ensures { Wrote self.old text.now self.new }
    {
        let end = self.at + text.len();
        let out = &mut *self.out;
        for (i, byte) in text.iter().enumerate() {
            out[self.at + i] = *byte;
        }
        self.at = end;
    }

    // Internal: a line with a key and a value.
    pub fn put_line<V: Value>(&mut self, key: &[u8], value: V)
        requires { HasRoom self.old (line_of key.now (V.text value)) }
        ensures { Wrote self.old (line_of key.now (V.text value)) self.new }
    {
        self.put(key);
        value.put(self);
        self.put(b"\n");
    }
}

// Internal: what stands on a line after its key.
pub trait Value {
    ghost text: { Self → List ℕ };

    // Internal: its text after what is written.
    fn put(self, page: &mut Page<'_>)
        requires { HasRoom page.old (text self) }
        ensures { Wrote page.old (text self) page.new };
}

// Internal: a value whose text has as many bytes as the number is long.
pub trait Number: Value {
    // Internal: how many bytes its text has.
    fn width(self) -> usize
        ensures { result ≡ length (Self.text self) };
}

// A word as it is.
impl<'a> Value for &'a [u8] {
    ghost text = { λ word. word.now };

    fn put(self, page: &mut Page<'_>) {
        page.put(self);
    }
}

// A number in decimal.
impl Value for u64 {
    ghost text = { decimal };

    fn put(self, page: &mut Page<'_>) {
        let mut text = [0u8; 20];
        let k = io::decimal(self, &mut text);
        page.put(&text[..k]);
    }
}

impl Number for u64 {
    fn width(self) -> usize {
        let mut text = [0u8; 20];
        io::decimal(self, &mut text)
    }
}

// A number with a minus where it is below 0.
impl Value for i32 {
    ghost text = { signed };

    fn put(self, page: &mut Page<'_>) {
        if self < 0 {
            page.put(b"-");
        }
        u64::from(self.unsigned_abs()).put(page);
    }
}

impl Number for i32 {
    fn width(self) -> usize {
        usize::from(self < 0) + u64::from(self.unsigned_abs()).width()
    }
}

// Internal: 64 bits, which are shown in hexadecimal.
#[derive(Clone, Copy)]
pub struct Bits(pub u64);

impl Value for Bits {
    ghost text = { λ bits. hex bits.0 };

    fn put(self, page: &mut Page<'_>) {
        let mut text = [0u8; 16];
        let k = io::hex(self.0, 16, &mut text);
        page.put(&text[..k]);
    }
}
