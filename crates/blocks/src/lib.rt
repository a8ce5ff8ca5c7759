// Entries of tables sixteen at a time: whether two tables differ there, and blocks of zeros passed over.
#![tactic(auto)]

ghost use Rattle.std.specs.Prelude.{◌≡◌, ℕ, Bool, ◌+◌, ◌-◌, ◌*◌, ◌^◌, ◌≤◌, ◌<◌, min, length};
ghost use Rattle.format.specs.Entries.{entry_at};
ghost use Rattle.blocks.specs.Blocks.{any_from, differs_at, named_at, PastBlocks, Passed};

use entries::entry_at;

// Entries k and k + 1 of the table at sector t as one number: their eight bytes.
fn pair_at(image: &[u8], t: u64, k: u64) -> u64
    requires { 512 * t + 4 * k + 8 ≤ length image.now }
    ensures { (result ≡ entry_at image.now t k + 0x100000000 * entry_at image.now t (k + 1))
        × (entry_at image.now t k < 0x100000000) × (entry_at image.now t (k + 1) < 0x100000000) }
{
    entry_at(image, t, k) + 0x100000000 * entry_at(image, t, k + 1)
}

// Whether one of the sixteen numbers from k on breaks a rule, of which `pair` tells for two: all eight pairs are asked, so that
// there is one answer for a block, and the loop over blocks has one test.
fn any_pair<F: Fn(u64) -> bool>(k: u64, pair: F) -> bool
    requires k_small { k < 2 ^ 63 }
    requires callable { (i : ℕ) → i < 8 → F.pre pair (k + 2 * i) }
    ensures { (broken : ℕ → Bool)
        → ((i : ℕ) (r : Bool) → F.post pair (k + 2 * i) r → r ≡ any_from broken (k + 2 * i) 2)
        → result ≡ any_from broken k 16 }
{
    let mut any = false;
    for i in 0..8 {
        any |= pair(k + 2 * i);
    }
    any
}

// Past the blocks of sixteen from number `from` on, before n, in which none breaks a rule: `block` tells for a block.
pub fn past_blocks<F: Fn(u64) -> bool>(from: u64, n: u64, block: F) -> u64
    requires from_le_n { from ≤ n }
    requires callable { (k : ℕ) → k + 16 ≤ n → F.pre block k }
    ensures { (broken : ℕ → Bool) → ((k : ℕ) (r : Bool) → F.post block k r → r ≡ any_from broken k 16)
        → PastBlocks broken from n result }
{
    let blocks = (n - from) / 16;
    for b in 0..blocks {
        let k = from + 16 * b;
        if block(k) {
            return k;
        }
    }
    from + 16 * blocks
}

// Whether one of two entries from k on differs in the tables at sectors t and u.
pub fn pair_differs(image: &[u8], t: u64, u: u64, k: u64) -> bool
    requires { (512 * t + 4 * k + 8 ≤ length image.now) × (512 * u + 4 * k + 8 ≤ length image.now) }
    ensures { result ≡ any_from (differs_at image.now t u) k 2 }
{
    !(pair_at(image, t, k) == pair_at(image, u, k))
}

// The same of sixteen.
pub fn block_differs(image: &[u8], t: u64, u: u64, k: u64) -> bool
    requires { (512 * t + 4 * k + 64 ≤ length image.now) × (512 * u + 4 * k + 64 ≤ length image.now) }
    ensures { result ≡ any_from (differs_at image.now t u) k 16 }
{
    any_pair(k, |j| pair_differs(image, t, u, j))
}

// Whether one of two entries from k on is not 0.
fn pair_named(image: &[u8], t: u64, k: u64) -> bool
    requires { 512 * t + 4 * k + 8 ≤ length image.now }
    ensures { result ≡ any_from (named_at image.now t) k 2 }
{
    !(pair_at(image, t, k) == 0)
}

// The same of sixteen.
fn block_named(image: &[u8], t: u64, k: u64) -> bool
    requires { 512 * t + 4 * k + 64 ≤ length image.now }
    ensures { result ≡ any_from (named_at image.now t) k 16 }
{
    any_pair(k, |j| pair_named(image, t, j))
}

// Past the blocks of zeros that begin at entry `from`, before entry n.
pub fn past_zeros(image: &[u8], t: u64, from: u64, n: u64) -> u64
    requires { (from ≤ n) × (512 * t + 4 * n ≤ length image.now) }
    ensures { Passed image.now t from n result }
{
    past_blocks(from, n, |k| block_named(image, t, k))
}

// The entries of the block that begins at entry k, before entry n.
pub fn block_entries(k: u64, n: u64) -> u64
    requires { k ≤ n }
    ensures { result ≡ min 16 (n - k) }
{
    (n - k).min(16)
}
