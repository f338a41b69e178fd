// The words in which an answer reaches C, and those of a search taken back.
#![tactic(auto)]

ghost use Rattle.std.specs.Prelude.{◌≡◌, true};
ghost use Rattle.answer.specs.Lent.{laid, holding};
ghost use Rattle.words.specs.Words.{found_words};
ghost use Rattle.words.specs.Lines.{limits, fit, found_of};

// Internal: words at the start of an answer; gives how many. Where the answer is shorter it gives 0 and changes nothing.
pub fn lay(words: &[u64], answer: &mut [u64]) -> usize
    ensures value { result ≡ laid words.now answer.old }
    ensures answer_after { answer.new ≡ holding words.now answer.old }
{
    answer::lay(words, answer)
}

// Internal: the words of a search.
pub fn found_words(f: found::Found) -> [u64; 13]
    ensures { result ≡ found_words f }
{
    let mut words = [0; 13];
    words[0] = u64::from(f.code);
    words[1] = f.at as u64;
    words[2..10].copy_from_slice(&f.places.map(u64::from));
    words[10] = f.squared;
    words[11] = u64::from(f.steps);
    words[12] = u64::from(f.known);
    words
}

// Is there a word for each limit, and none above its limit?
fn fits(words: &[u64], limits: &[u64]) -> bool
    ensures { result ≡ fit limits.now words.now }
{
    limits.len() <= words.len() && words.iter().zip(limits).all(|(word, most)| word <= most)
}

// Internal: are they the words of a search?
pub fn is_found(words: &[u64]) -> bool
    ensures { result ≡ fit limits words.now }
{
    let limits = [
        255,
        18446744073709551615,
        65535,
        65535,
        65535,
        65535,
        65535,
        65535,
        65535,
        65535,
        18446744073709551615,
        4294967295,
        1,
    ];
    fits(words, &limits)
}

// Internal: the search that the words are of.
pub fn found_of(w: &[u64]) -> found::Found
    requires { fit limits w.now ≡ true }
    ensures { result ≡ found_of w.now }
{
    let places = std::array::from_fn(|i| w[2 + i] as u16);
    found::Found {
        code: w[0] as u8,
        at: w[1] as usize,
        places,
        squared: w[10],
        steps: w[11] as u32,
        known: w[12] == 1,
    }
}
