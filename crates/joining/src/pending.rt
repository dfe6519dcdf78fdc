// The pairs of nodes that are still to be made the same, each as one number: so the theorems read them (`GoalHolds`).
ghost use Rattle.std.specs.Prelude.{◌≡◌, ◌+◌, ◌*◌, ◌/◌, ◌%◌, ◌≤◌, ◌<◌, length, get_or, set, replicate, MatchOption};

// The first `count` of `pairs`, the next one last.
#[derive(Drop)]
pub struct Pending {
    pub pairs: [u16; 512],
    pub count: usize,
    ghost room: { count ≤ 512 },
}

// The nodes l and r as one number.
pub fn pair(l: usize, r: usize) -> u16
    requires { (l < 64) × (r < 64) }
    ensures { result ≡ l * 64 + r }
{
    (l * 64 + r) as u16
}

impl Pending {
    // One pair.
    pub fn one(l: usize, r: usize) -> Self
        requires { (l < 64) × (r < 64) }
        ensures { (length result.pairs ≡ 512) × (get_or result.pairs 0 0 ≡ l * 64 + r) × (result.count ≡ 1)
            × (result.pairs ≡ set (replicate 512 0) 0 (l * 64 + r)) }
    {
        let mut pairs = [0; 512];
        pairs[0] = pair(l, r);
        Self { pairs, count: 1 }
    }

    // The next pair, taken off, if there is one.
    pub fn pop(&mut self) -> Option<(usize, usize)>
        ensures { (self.new.pairs ≡ self.old.pairs) × MatchOption result
            ((self.old.count ≡ 0) × (self.new.count ≡ 0))
            (λ e. (self.old.count ≡ self.new.count + 1)
            × (e.0 ≡ get_or self.new.pairs self.new.count 0 / 64)
            × (e.1 ≡ get_or self.new.pairs self.new.count 0 % 64)) }
    {
        self.count = self.count.checked_sub(1)?;
        let e = self.pairs[self.count] as usize;
        Some((e / 64, e % 64))
    }
}
