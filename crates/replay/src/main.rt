// Replays an operation log from standard input (SCOPE.md, 'The log program'): reads it, and turn after turn writes a
// line. What each turn does, and that the lines are those of the definition, stands in crate turns.
#![tactic(auto)]

use laws::{ANSWER, BYTES, INPUT, LABEL, LINE, LINK, SETS, USED};
use reading::read_full;
use std::io;
use std::io::Write;
use turns::turn;

// Takes field after field, the first from the start of the input. One byte more than the limit tells that an input is
// too long. A while: the next place comes from the field.
fn main(rt: HostRuntime) -> io::Result<()> {
    let mut input = [0u8; INPUT + 1];
    let mut bytes = [0u8; BYTES];
    let mut used = [0u64; USED];
    let mut label = [0u32; LABEL];
    let mut link = [0u16; LINK];
    let mut s0 = [0u64; SETS];
    let mut s1 = [0u64; SETS];
    let mut s2 = [0u64; SETS];
    let mut s3 = [0u64; SETS];
    let mut out = [0u8; ANSWER];
    let mut line = [0u8; LINE];
    let n = read_full(&mut rt.stdin(), &mut input)?;
    let mut at: usize = 0;
    while at < n {
        let done = turn(
            &input[..n],
            at,
            &mut bytes,
            &mut used,
            &mut label,
            &mut link,
            &mut s0,
            &mut s1,
            &mut s2,
            &mut s3,
            &mut out,
            &mut line,
        );
        rt.stdout().write_all(&line[..done.length])?;
        at = done.next;
    }
    Ok(())
}
