// A reader of a log: the log's slice and the place of its next field (SCOPE.md, 'The log program').
// Each function over the struct is thin; `take_at` does the work.
ghost use Rattle.std.specs.Prelude.{◌≡◌, ◌<◌, ◌^◌, length, leb};
ghost use Rattle.std.specs.Iterator.{YieldsFirst, item_count};
ghost use Rattle.logfields.specs.Reading.{past, taken_at, fields_from};

use crate::field::{Field, field_at};

#[derive(Debug, Clone, Copy, PartialEq, Eq)]
pub struct Reader<'a> {
    pub log: &'a [u8],
    pub at: usize,
}

// What a reader has taken: a field, and the place of the next one.
#[derive(Debug, Clone, Copy, PartialEq, Eq)]
pub struct Taken {
    pub field: Field,
    pub place: usize,
}

// Past a whole field's payload; the log's end where no whole field stands.
fn place_after(field: Field, end: usize) -> usize
    requires { past field end < 2 ^ 64 }
    ensures { result ≡ past field end }
{
    match field {
        Field::End | Field::Cut => end,
        Field::Whole { start, length, .. } => start + length,
    }
}

// The cursor: the field at a place, and the place of the next one.
pub fn take_at(log: &[u8], at: usize) -> Taken
    ensures { result ≡ taken_at log.now at }
{
    let field = field_at(log, at);
    let place = place_after(field, log.len());
    Taken { field, place }
}

impl<'a> Reader<'a> {
    // A reader of a whole log.
    pub fn over(log: &'a [u8]) -> Reader<'a>
        ensures { (result.log ≡ log.entry) × (result.at ≡ 0) }
    {
        Reader { log, at: 0 }
    }

    // The same log, read on from a place.
    pub fn resumed(self, at: usize) -> Reader<'a>
        ensures { (result.log ≡ self.entry.log) × (result.at ≡ at) }
    {
        Reader { log: self.log, at }
    }

    // The place of the next field.
    pub fn place(self) -> usize
        ensures { result ≡ self.entry.at }
    {
        self.at
    }

    // No byte is left.
    pub fn is_done(self) -> bool
        ensures { result ≡ leb (length self.entry.log.now) self.entry.at }
    {
        self.log.len() <= self.at
    }

    // The field at the reader's place, and the place past it.
    pub fn next(self) -> Taken
        ensures { result ≡ taken_at self.entry.log.now self.entry.at }
    {
        take_at(self.log, self.at)
    }
}

// The fields that are left, one after another, up to the first cut one.
impl<'a> Iterator for Reader<'a> {
    type Item = Field;

    ghost next_gives = { YieldsFirst (λ s. fields_from s.log.now s.at) };

    ghost remaining = { item_count (λ s. fields_from s.log.now s.at) };

    fn next(&mut self) -> Option<Field> {
        let Taken { field, place } = take_at(self.log, self.at);
        self.at = place;
        match field {
            Field::End => None,
            _ => Some(field),
        }
    }
}

// One field of a log, through a reader: no caller of it sees the struct.
pub fn read(log: &[u8], at: usize) -> Taken
    ensures { result ≡ taken_at log.now at }
{
    Reader::over(log).resumed(at).next()
}
