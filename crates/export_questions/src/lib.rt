// What C and Rust ask of the tables. Each answers 0 or the number of the refusal (SCOPE.md, 'Numbers of refusal'), and
// writes numbers only where it answers 0.
#![tactic(auto)]

ghost use Rattle.std.specs.Prelude.{length};
ghost use Rattle.layout.specs.Tables.{held};
ghost use Rattle.library.specs.Store.{with_key, retrieve, solve};
ghost use Rattle.meaning.specs.Runs.{TellsFirst, TellsBoth};

use export_answers::{tell_both, tell_first};

// The key question: the slots whose term has the key, two bytes each.
#[unsafe(no_mangle)]
pub extern "C" fn azunkefogo_with_key(
    bytes: &[u8],
    used: &[u64],
    label: &[u32],
    link: &[u16],
    sets0: &[u64],
    sets1: &[u64],
    sets2: &[u64],
    sets3: &[u64],
    key: &[u8],
    out: &mut [u8],
    count: &mut usize,
) -> u32
    ensures { TellsFirst
        (held bytes.now used.now label.now link.now
        sets0.now sets1.now sets2.now sets3.now)
        out.old (with_key key.now (length out.old))
        (held bytes.now used.now label.now link.now
        sets0.now sets1.now sets2.now sets3.now)
        out.new result count.old count.new }
{
    tell_first(
        keyquestion::with_key(
            bytes, used, label, link, sets0, sets1, sets2, sets3, key, out,
        ),
        count,
    )
}

// A retrieval: the number of candidates, the number of answers, and the answers, two bytes each.
#[unsafe(no_mangle)]
pub extern "C" fn azunkefogo_retrieve(
    bytes: &[u8],
    used: &[u64],
    label: &[u32],
    link: &[u16],
    sets0: &[u64],
    sets1: &[u64],
    sets2: &[u64],
    sets3: &[u64],
    relation: usize,
    question: &[u8],
    out: &mut [u8],
    candidates: &mut usize,
    answers: &mut usize,
) -> u32
    ensures { TellsBoth
        (held bytes.now used.now label.now link.now
        sets0.now sets1.now sets2.now sets3.now)
        out.old (retrieve relation question.now (length out.old))
        (held bytes.now used.now label.now link.now
        sets0.now sets1.now sets2.now sets3.now)
        out.new result
        candidates.old candidates.new answers.old answers.new }
{
    tell_both(
        retrieve::retrieve(
            bytes, used, label, link, sets0, sets1, sets2, sets3, relation, question, out,
        ),
        candidates,
        answers,
    )
}

// The record of the most general unifier: its fields, and the bytes written.
#[unsafe(no_mangle)]
pub extern "C" fn azunkefogo_solve(
    bytes: &[u8],
    used: &[u64],
    label: &[u32],
    link: &[u16],
    sets0: &[u64],
    sets1: &[u64],
    sets2: &[u64],
    sets3: &[u64],
    slot: usize,
    question: &[u8],
    out: &mut [u8],
    fields: &mut usize,
    written: &mut usize,
) -> u32
    ensures { TellsBoth
        (held bytes.now used.now label.now link.now
        sets0.now sets1.now sets2.now sets3.now)
        out.old (solve slot question.now (length out.old))
        (held bytes.now used.now label.now link.now
        sets0.now sets1.now sets2.now sets3.now)
        out.new result
        fields.old fields.new written.old written.new }
{
    tell_both(
        solving::solve(
            bytes, used, label, link, sets0, sets1, sets2, sets3, slot, question, out,
        ),
        fields,
        written,
    )
}
