// The output: words and numbers.

pub(crate) fn put(word: &[u8], n: u64) {
    io::write_all(1, word);
    io::print_decimal(1, n);
}

pub(crate) fn put_signed(word: &[u8], z: i32) {
    io::write_all(1, word);
    if z < 0 {
        io::write_all(1, b"-");
    }
    io::print_decimal(1, u64::from(z.unsigned_abs()));
}
