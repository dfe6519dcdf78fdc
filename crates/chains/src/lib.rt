// Keys by their labels: chains through a table of links.
#![tactic(auto)]

ghost use Rattle.std.specs.Prelude.{◌≡◌, ◌+◌, ◌-◌, ◌*◌, ◌%◌, ◌≤◌, ◌<◌, suc, length, get_or, set, unwrap_or, IfSome};
ghost use Rattle.chains.specs.Chains.{home as home_of, find as find_of, unlink as unlink_of};
ghost use Rattle.chains.specs.Chains.{taken, pushed, relinked, longer};
ghost use Rattle.chains.specs.FreeChain.{FreeChain, Freed};
ghost use Rattle.laws.specs.Sizes.{free_head, key_limit, last_key, link_length};

use laws::{CHAINS, FREE, KEYS, LAST_KEY};

fn home(w: u32) -> usize
    ensures { (result ≡ home_of w) × (key_limit ≤ result) × (result < link_length) }
{
    if w == 0 {
        FREE
    } else {
        KEYS + (w as usize - 1) % CHAINS
    }
}

// The key with label `w`.
pub fn find(link: &[u16], label: &[u32], w: u32) -> Option<usize>
    requires { (link_length ≤ length link.now) × (key_limit ≤ length label.now) }
    ensures found { unwrap_or result key_limit ≡ find_of link.now label.now w }
    ensures below { IfSome result (λ k. k < key_limit) }
{
    let mut k = link[home(w)] as usize;
    for _ in 0..KEYS {
        if k == 0 {
            return None;
        }
        let j = (k - 1) % KEYS;
        if label[j] == w {
            return Some(j);
        }
        k = link[j] as usize;
    }
    None
}

// Takes the key `k` off the chain that goes on at `from`.
fn unlink(link: &mut [u16], k: usize, from: usize)
    requires { (link_length ≤ length link.old) × (from < link_length) × (k < key_limit) }
    ensures { link.new
        ≡ unlink_of link.old k key_limit from (get_or link.old from 0) }
{
    let mut at = from;
    for _ in 0..KEYS {
        let x = link[at] as usize;
        if x == 0 {
            return;
        }
        if x - 1 == k {
            link[at] = link[k];
            return;
        }
        at = (x - 1) % KEYS;
    }
}

// Gives the key `k` the label `w`; 0 makes it free.
pub fn relabel(link: &mut [u16], label: &mut [u32], k: u16, w: u32)
    requires { (link_length ≤ length link.old) × (key_limit ≤ length label.old) × (k < key_limit) }
    ensures { (link.new ≡ relinked link.old label.old k w)
        × (label.new ≡ set label.old k w) }
{
    let j = k as usize;
    let old = home(label[j]);
    unlink(link, j, old);
    let at = home(w);
    link[j] = link[at];
    link[at] = k + 1;
    label[j] = w;
}

// Are there at least `m` free keys.
pub fn roomy(link: &[u16], m: usize) -> bool
    requires { link_length ≤ length link.now }
    ensures { result ≡ longer link.now m (get_or link.now free_head 0) }
{
    let mut k = link[FREE] as usize;
    for _ in 0..m {
        if k == 0 {
            return false;
        }
        k = link[(k - 1) % KEYS] as usize;
    }
    true
}

// The free keys in order: each leads to the next one.
fn free_chain(link: &mut [u16])
    requires { link_length ≤ length link.old }
    ensures { FreeChain link.old link.new last_key }
{
    for i in 0..LAST_KEY {
        link[i] = i as u16 + 2;
    }
}

// Every key free, in order.
pub fn free_all(link: &mut [u16])
    requires { link_length ≤ length link.old }
    ensures { Freed link.old link.new }
{
    free_chain(link);
    link[LAST_KEY..FREE].fill(0);
    link[FREE] = 1;
}
