// The candidate walk: the slots whose term agrees with the question at each place met (SCOPE.md, 'Paths and keys').
#![tactic(auto)]

ghost use Rattle.std.specs.Prelude.{◌≡◌, ◌+◌, ◌≤◌, ◌<◌, length, drop};
ghost use Rattle.keysets.specs.Tables.{sets_of};
ghost use Rattle.definitions.specs.Candidates.{opens, stars as stars_of};
ghost use Rattle.definitions.specs.Trees.{forest, arguments_after, tree_of};
ghost use Rattle.candidates.specs.Ends.{EndsFrom, Ended};
ghost use Rattle.candidates.specs.Narrow.{Narrowed};
ghost use Rattle.candidates.specs.Tables.{TablesSized};
ghost use Rattle.candidates.specs.Walk.{having, walk};
ghost use Rattle.laws.specs.Sizes.{place_end, root_place};

use chains::find;
use keysets::KeySets;
use laws::{KEYS, ROOT, VARIABLE16};
use outline::decode;
use slots::SlotSet;
use termkeys::{label_of, place_below};
use terms::arity;

// The tables a search reads: the chain links and labels of the keys, and the keys' sets.
#[derive(Clone, Copy)]
pub struct KeyTables<'a> {
    pub link: &'a [u16],
    pub label: &'a [u32],
    pub sets: KeySets<'a>,
}

// Which variables agree with anything at their place: the question's, the stored term's.
#[derive(Debug, Clone, Copy, PartialEq, Eq)]
pub struct Rule {
    pub open: bool,
    pub stars: bool,
}

// The rule of a relation, by its number; a number, and no enum, since the clause holds of every number.
pub fn rule_of(relation: usize) -> Rule
    ensures { (result.open ≡ opens relation) × (result.stars ≡ stars_of relation) }
{
    Rule {
        open: relation == 2 || relation == 4,
        stars: relation == 3 || relation == 4,
    }
}

// The slots of `within` whose term has a variable at the place.
fn star_at(tables: &KeyTables, place: u32, within: SlotSet) -> SlotSet
    requires { TablesSized tables.now × (place < place_end) }
    ensures { result.words
        ≡ having tables.now.link.now tables.now.label.now (sets_of tables.now.sets) place 256 within.words }
{
    match find(tables.link, tables.label, label_of(place, 256)) {
        Some(k) => tables.sets.meet(k, within),
        None => SlotSet::empty(),
    }
}

// The slots of `within` whose term agrees with the question's term at item `at`, at the place with this number.
// The tables are lent: by value each level would copy them, 16 percent more instructions and 176 bytes more stack.
fn narrow(
    tables: &KeyTables,
    items: &[u16],
    ends: &[u8; 32],
    rule: Rule,
    at: usize,
    place: u32,
    levels: usize,
    within: SlotSet,
) -> SlotSet
    requires sized { TablesSized tables.now }
    requires at_in_bounds { (at < length items.now) × (length items.now ≤ at + levels) × (length items.now ≤ 32)
        × EndsFrom 0 (length items.now) ends.now × (place < place_end) }
    ensures { Narrowed tables.now.link.now tables.now.label.now
        (sets_of tables.now.sets) rule.open rule.stars
        items.now ends.now at place within.words result.words }
{
    if algebra::is_empty(within) {
        return within;
    }
    let x = items[at];
    if VARIABLE16 <= x {
        if rule.open {
            return within;
        }
        return star_at(tables, place, within);
    }
    // 4096 for no key: it meets no slot, so the walk on leaves none; a way out here would repeat the star's case.
    let k = find(tables.link, tables.label, label_of(place, x)).unwrap_or(KEYS);
    let mut deep = tables.sets.meet(k, within);
    let end = ends[at] as usize;
    let mut child = at + 1;
    let mut next = place_below(k);
    // A while: the next argument begins where the ends say.
    while child < end {
        deep = narrow(tables, items, ends, rule, child, next, levels - 1, deep);
        next += 1;
        child = ends[child] as usize;
    }
    if rule.stars {
        let star = star_at(tables, place, within);
        return algebra::or(deep, star);
    }
    deep
}

// Where the term at item i ends, from the ends of later items.
fn end_after(sig: &[u8], items: &[u16], ends: &[u8; 32], i: usize) -> usize
    requires { (i < length items.now) × (length items.now ≤ 32)
        × EndsFrom (i + 1) (length items.now) ends.now × Ended (i + 1) sig.now items.now ends.now }
    ensures { (i < result) × (result ≤ length items.now)
        ×
        (forest sig.now (drop result items.now) ≡ arguments_after 1
        (forest sig.now (drop i items.now))) }
{
    let mut e = i + 1;
    for _ in 0..arity(sig, items[i] as usize) {
        if items.len() <= e {
            return e;
        }
        e = ends[e] as usize;
    }
    e
}

// Where the term at each item ends, from the last item to the first.
fn find_ends(sig: &[u8], items: &[u16], ends: &mut [u8; 32])
    requires { (length items.now ≤ 32) × (length ends.old ≡ 32) }
    ensures { EndsFrom 0 (length items.now) ends.new
        × Ended 0 sig.now items.now ends.new }
{
    for i in (0..items.len()).rev() {
        ends[i] = end_after(sig, items, ends, i) as u8;
    }
}

// The candidates of a question among the slots in use.
pub fn candidates(
    tables: KeyTables,
    sig: &[u8],
    relation: usize,
    question: &[u8],
    used: SlotSet,
) -> SlotSet
    requires { TablesSized tables × (2 ≤ length question.now)
        × (length question.now ≤ 64) }
    ensures { result.words
        ≡ walk tables.entry.link.now tables.entry.label.now
        (sets_of tables.entry.sets) (opens relation)
        (stars_of relation) (tree_of sig.now question.now) root_place used.words }
{
    let mut items = [0u16; 32];
    let mut ends = [0u8; 32];
    let n = decode(question, &mut items);
    let items = &items[..n];
    find_ends(sig, items, &mut ends);
    narrow(&tables, items, &ends, rule_of(relation), 0, ROOT, 32, used)
}
