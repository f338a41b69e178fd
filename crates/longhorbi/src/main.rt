// Longhorbi: reads a place sheet from standard input and prints the answer to standard output.
#![tactic(auto)]

// One byte more than an input may have is read, so that 55 can be told. A read that fails ends the input.
fn answer_into(input: &mut [u8], out: &mut [u8]) {
    let n = io::read_full(0, input);
    let k = reply::reply(&input[..n], out);
    io::write_all(1, &out[..k]);
}

fn main() {
    let mut input = [0u8; 65537];
    let mut out = [0u8; 534];
    answer_into(&mut input, &mut out);
}
