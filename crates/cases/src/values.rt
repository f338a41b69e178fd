// The types of the numbers in a case.
ghost use Rattle.std.specs.Prelude.{◌≡◌, ℕ, IfOk};
ghost use Rattle.std.specs.Int.{w64, cast_unsigned};

use crate::show::Page;
use crate::words::BadCase;

// Internal: a number of a case: the word that stands for it, and how it is printed.
pub trait Value: Copy {
    ghost word_of: { Self → ℕ };

    fn of_word(word: u64) -> Result<Self, BadCase>
        ensures { IfOk result (λ v. word ≡ word_of v) };

    fn put(self, page: &mut Page);
}

impl Value for u8 {
    ghost word_of = { λ v. v };

    fn of_word(word: u64) -> Result<u8, BadCase> {
        Ok(u8::try_from(word)?)
    }

    fn put(self, page: &mut Page) {
        page.put_decimal(u64::from(self));
    }
}

impl Value for u16 {
    ghost word_of = { λ v. v };

    fn of_word(word: u64) -> Result<u16, BadCase> {
        Ok(u16::try_from(word)?)
    }

    fn put(self, page: &mut Page) {
        page.put_decimal(u64::from(self));
    }
}

impl Value for u32 {
    ghost word_of = { λ v. v };

    fn of_word(word: u64) -> Result<u32, BadCase> {
        Ok(u32::try_from(word)?)
    }

    fn put(self, page: &mut Page) {
        page.put_decimal(u64::from(self));
    }
}

impl Value for u64 {
    ghost word_of = { λ v. v };

    fn of_word(word: u64) -> Result<u64, BadCase> {
        Ok(word)
    }

    fn put(self, page: &mut Page) {
        page.put_decimal(self);
    }
}

impl Value for usize {
    ghost word_of = { λ v. v };

    fn of_word(word: u64) -> Result<usize, BadCase> {
        Ok(usize::try_from(word)?)
    }

    fn put(self, page: &mut Page) {
        page.put_decimal(self as u64);
    }
}

// In two's complement.
impl Value for i32 {
    ghost word_of = { λ v. cast_unsigned w64 v };

    fn of_word(word: u64) -> Result<i32, BadCase> {
        Ok(i32::try_from(word.cast_signed())?)
    }

    // As the library prints it, whose contract says what that is.
    fn put(self, page: &mut Page) {
        let mut text = [0; 21];
        let mut lent = print::Page {
            out: &mut text,
            at: 0,
        };
        print::Value::put(self, &mut lent);
        let n = lent.at;
        page.put(&text[..n]);
    }
}
