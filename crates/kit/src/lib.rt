// Kit words and wants: bit k of a word says that kind k is held.
#![tactic(auto)]

ghost use Rattle.std.specs.Prelude.{◌≡◌, ◌≤◌, ◌<◌, length};
ghost use Rattle.kit.specs.Kit.{held, kinds, all_held, listed};

// The kinds of a want, ascending: the first `count` of `kinds`; the others are 0.
#[derive(Drop)]
pub struct Listed {
    pub count: usize,
    pub kinds: [u8; 8],
}

// Internal: does a kit word hold kind k?
pub fn holds(kit: u64, k: usize) -> bool
    requires { k < 64 }
    ensures { result ≡ held kit k }
{
    (kit >> k) % 2 == 1
}

// Internal: does a kit word hold every kind of a want?
pub fn holds_all(kit: u64, want: u64) -> bool
    ensures { result ≡ all_held kit (kinds want) }
{
    kit & want == want
}

// Internal: how many kinds a want names.
pub fn count_kinds(want: u64) -> u32
    ensures { result ≡ length (kinds want) }
{
    want.count_ones()
}

// Internal: the kinds of a want that names at most eight.
pub fn list_kinds(want: u64) -> Listed
    requires { length (kinds want) ≤ 8 }
    ensures { result ≡ listed (kinds want) }
{
    let many = count_kinds(want) as usize;
    let mut kinds = [0u8; 8];
    let mut count: usize = 0;
    for k in 0..64u8 {
        if count == many {
            break;
        }
        if holds(want, usize::from(k)) {
            kinds[count] = k;
            count += 1;
        }
    }
    Listed { count, kinds }
}
