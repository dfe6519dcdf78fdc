// A slot put into the set of a key, and taken out of it.
#![tactic(auto)]

ghost use Rattle.std.specs.Prelude.{◌≡◌, ℕ, ◌^◌, ◌<◌};
ghost use Rattle.keysets.specs.KeySets.{four, word, put_word, mark as mark_of, unmark as unmark_of, SetTablesLong};
ghost use Rattle.laws.specs.Sizes.{key_limit, slot_count};

use laws::SET_KEYS;

// Word i of the set of key k becomes what f makes of it.
fn change<F: Fn(u64) -> u64>(
    s0: &mut [u64],
    s1: &mut [u64],
    s2: &mut [u64],
    s3: &mut [u64],
    k: usize,
    i: usize,
    f: F,
)
    requires within { SetTablesLong s0.old s1.old s2.old s3.old × (k < key_limit) × (i < 8) }
    requires callable { F.IsAlwaysCallable f }
    ensures { (v : ℕ) × F.post f (word (four s0.old s1.old s2.old s3.old) k i) v
        × (word (four s0.old s1.old s2.old s3.old) k i < 2 ^ 64)
        × (four s0.new s1.new s2.new s3.new ≡ put_word (four s0.old s1.old s2.old s3.old) k i v) }
{
    let at = k % SET_KEYS * 8 + i;
    match k / SET_KEYS {
        0 => s0[at] = f(s0[at]),
        1 => s1[at] = f(s1[at]),
        2 => s2[at] = f(s2[at]),
        _ => s3[at] = f(s3[at]),
    }
}

pub fn mark(s0: &mut [u64], s1: &mut [u64], s2: &mut [u64], s3: &mut [u64], k: usize, s: usize)
    requires { SetTablesLong s0.old s1.old s2.old s3.old × (k < key_limit) × (s < slot_count) }
    ensures { four s0.new s1.new s2.new s3.new
        ≡ mark_of (four s0.old s1.old s2.old s3.old) k s }
{
    change(s0, s1, s2, s3, k, s / 64, |word| word | 1 << (s % 64));
}

pub fn unmark(s0: &mut [u64], s1: &mut [u64], s2: &mut [u64], s3: &mut [u64], k: usize, s: usize)
    requires { SetTablesLong s0.old s1.old s2.old s3.old × (k < key_limit) × (s < slot_count) }
    ensures { four s0.new s1.new s2.new s3.new
        ≡ unmark_of (four s0.old s1.old s2.old s3.old) k s }
{
    change(s0, s1, s2, s3, k, s / 64, |word| word & !(1 << (s % 64)));
}
