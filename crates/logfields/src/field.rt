// The field that starts at a place of the input.
ghost use Rattle.std.specs.Prelude.{◌≡◌};
ghost use Rattle.logfields.specs.Fields.{field_at};

// What stands at a place: nothing more, a cut field, or a whole one, whose payload is `length` bytes from `start` on.
// An enum of its own: these are three ways, and a cut field is no failure of the reading.
#[derive(Debug, Clone, Copy, PartialEq, Eq)]
pub enum Field {
    End,
    Cut,
    Whole {
        tag: u8,
        start: usize,
        length: usize,
    },
}

// SCOPE.md, 'The log program': one-byte tag, two-byte length (high first), payload.
pub fn field_at(input: &[u8], at: usize) -> Field
    ensures { result ≡ field_at input.now at }
{
    if input.len() <= at {
        return Field::End;
    }
    let left = input.len() - at;
    if left < 3 {
        return Field::Cut;
    }
    let length = u16::from_be_bytes([input[at + 1], input[at + 2]]) as usize;
    if left - 3 < length {
        return Field::Cut;
    }
    Field::Whole {
        tag: input[at],
        start: at + 3,
        length,
    }
}
