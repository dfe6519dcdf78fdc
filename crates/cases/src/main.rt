// Runs the cases of standard input and prints what each got (SCOPE.md, 'Both sides of the edges' and 'Numbers of
// refusal').
//
// A case is a line of a name, a word, a number and bytes in hex (- for none). Its first three words are printed, then
// the answer. The number is the signature's length (open), how often (insert), the slot (delete, solve, measure), the
// relation (retrieve, numbers), or the argument (argument). `grow` inserts as `insert` does, the second byte of the
// term one more each time. `buffer` sets the length of the answer buffer, `table` makes one table, 0 to 7, shorter by
// one element, 8 none.
#![tactic(auto)]

ghost use Rattle.std.specs.Prelude.{◌≡◌, ◌+◌, ◌*◌, ◌≤◌, ◌<◌, length};
ghost use Rattle.laws.specs.Sizes.{answer_room};
ghost use Rattle.layout.specs.Tables.{held};
ghost use Rattle.calls.specs.Outcome.{outcome};
ghost use Rattle.cases.specs.Lent.{lent_length, case_outcome, room_after, case_after};

use calls::Reply;
use caselines::{order_of, say};
use casetext::{Case, case_at};
use laws::{ANSWER, BYTES, LABEL, LINK, SETS, USED};
use orders::call;
use reading::read_full;
use std::io;
use std::io::Write;

// The line, how many calls of its case are done, the length of the answer buffer, and the table that is lent too short.
// A number, and no Option: a case gives it, and each from 8 on is no table's.
#[derive(Clone, Copy)]
struct Place {
    at: usize,
    round: usize,
    room: usize,
    short: usize,
}

// Where the first case starts: the first line, the whole answer buffer, no table too short.
fn start() -> Place
    ensures { (result.at ≡ 0) × (result.round ≡ 0) × (result.room ≡ answer_room) × (result.short ≡ 8) }
{
    Place {
        at: 0,
        round: 0,
        room: ANSWER,
        short: 8,
    }
}

// The length of a table, or one less if it is the one that is too short.
fn cut(n: usize, table: usize, short: usize) -> usize
    ensures { (result ≡ lent_length short table n) × (result ≤ n) }
{
    if table == short {
        n.saturating_sub(1)
    } else {
        n
    }
}

// One call of a case, on tables of which one may be lent too short.
fn lend(
    case: Case,
    place: Place,
    given: &[u8; 512],
    bytes: &mut [u8],
    used: &mut [u64],
    label: &mut [u32],
    link: &mut [u16],
    s0: &mut [u64],
    s1: &mut [u64],
    s2: &mut [u64],
    s3: &mut [u64],
    out: &mut [u8],
) -> Reply
    requires { (case.length ≤ 512) × (place.room ≤ length out.old) }
    ensures { outcome result
        (held bytes.new used.new label.new link.new
        s0.new s1.new s2.new s3.new) out.new
        ≡ case_outcome case place given.now
        (held bytes.old used.old label.old link.old
        s0.old s1.old s2.old s3.old) out.old }
{
    let short = place.short;
    let l0 = cut(bytes.len(), 0, short);
    let l1 = cut(used.len(), 1, short);
    let l2 = cut(label.len(), 2, short);
    let l3 = cut(link.len(), 3, short);
    let l4 = cut(s0.len(), 4, short);
    let l5 = cut(s1.len(), 5, short);
    let l6 = cut(s2.len(), 6, short);
    let l7 = cut(s3.len(), 7, short);
    call(
        order_of(case),
        &given[..case.length],
        &mut bytes[..l0],
        &mut used[..l1],
        &mut label[..l2],
        &mut link[..l3],
        &mut s0[..l4],
        &mut s1[..l5],
        &mut s2[..l6],
        &mut s3[..l7],
        &mut out[..place.room],
    )
}

// Writes a case's line after its last call.
fn finish<W: Write>(
    output: &mut W,
    case: Case,
    reply: Reply,
    head: &[u8],
    given: &[u8; 512],
    out: &[u8; ANSWER],
) -> io::Result<()>
    requires { case.length ≤ 512 }
{
    if 0 < case.left {
        return Ok(());
    }
    let mut line = [0u8; 4096];
    let n = say(case, reply, head, &given[..case.length], out, &mut line);
    output.write_all(&line[..n])
}

// The room that a case sets, as far as there is any.
fn room_after(case: Case, room: usize) -> usize
    requires { room ≤ answer_room }
    ensures { (result ≡ room_after case room) × (result ≤ answer_room) }
{
    if case.word == b'b' {
        case.number.min(ANSWER)
    } else {
        room
    }
}

// After a call: the same line where more calls are left, or else the next one.
fn place_after(case: Case, place: Place) -> Place
    requires { (place.at < case.next) × (case.left + place.round < 16777216) × (place.room ≤ answer_room) }
    ensures { (result ≡ case_after case place) × (result.round < 16777216) × (result.room ≤ answer_room)
        × (place.at * 16777216 + place.round < result.at * 16777216 + result.round) }
{
    if 0 < case.left {
        return Place {
            round: place.round + 1,
            ..place
        };
    }
    Place {
        at: case.next,
        round: 0,
        room: room_after(case, place.room),
        short: if case.word == b't' {
            case.number
        } else {
            place.short
        },
    }
}

// Runs case after case. A while: the next place comes from the text.
fn main(rt: HostRuntime) -> io::Result<()> {
    let mut input = [0u8; 65536];
    let mut given = [0u8; 512];
    let mut bytes = [0u8; BYTES];
    let mut used = [0u64; USED];
    let mut label = [0u32; LABEL];
    let mut link = [0u16; LINK];
    let mut s0 = [0u64; SETS];
    let mut s1 = [0u64; SETS];
    let mut s2 = [0u64; SETS];
    let mut s3 = [0u64; SETS];
    let mut out = [0u8; ANSWER];
    let n = read_full(&mut rt.stdin(), &mut input)?;
    let mut place = start();
    while place.at < n {
        let case = case_at(&input[..n], place.at, place.round, &mut given);
        let reply = lend(
            case, place, &given, &mut bytes, &mut used, &mut label, &mut link, &mut s0, &mut s1,
            &mut s2, &mut s3, &mut out,
        );
        finish(
            &mut rt.stdout(),
            case,
            reply,
            &input[place.at..case.shown],
            &given,
            &out,
        )?;
        place = place_after(case, place);
    }
    Ok(())
}
