// One turn of the log program: the field at a place of the log, its call on the lent tables, its line (SCOPE.md, 'The
// log program').
#![tactic(auto)]

ghost use Rattle.layout.specs.Tables.{held};
ghost use Rattle.turns.specs.Turns.{Turned};

use answerlines::{say, stops};
use orders::call;
use tasks::task_at;

// The length of a field's line, and where the next field starts: at the input's end where the log stops.
#[derive(Clone, Copy)]
pub struct Progress {
    pub length: usize,
    pub next: usize,
}

// Makes the call of the field at a place, and writes its line to the start of `line`.
pub fn turn(
    input: &[u8],
    at: usize,
    bytes: &mut [u8],
    used: &mut [u64],
    label: &mut [u32],
    link: &mut [u16],
    s0: &mut [u64],
    s1: &mut [u64],
    s2: &mut [u64],
    s3: &mut [u64],
    out: &mut [u8],
    line: &mut [u8],
) -> Progress
    ensures { Turned input.now at
        (held bytes.old used.old label.old link.old
        s0.old s1.old s2.old s3.old)
        out.old line.old
        (held bytes.new used.new label.new link.new
        s0.new s1.new s2.new s3.new)
        out.new line.new result.length result.next }
{
    let task = task_at(input, at);
    let reply = call(
        task.order,
        &input[task.start..task.end],
        bytes,
        used,
        label,
        link,
        s0,
        s1,
        s2,
        s3,
        out,
    );
    let length = say(task.order, reply, out, line);
    let next = if stops(task.order, reply) {
        input.len()
    } else {
        task.end
    };
    Progress { length, next }
}
