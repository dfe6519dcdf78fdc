// The sizes of the library, and the number of two bytes. Laws of lists, parts and choices stand in proofs/.
#![tactic(auto)]

ghost use Rattle.std.specs.Prelude.{◌≡◌, ◌+◌, ◌*◌, ◌<◌, length, get_or};

// Every size of the library, once (specs/Sizes.antt): slots, keys, the variables' numbers, the items of a value.
pub const SLOTS: usize = 512;

pub const KEYS: usize = 4096;

pub const LAST_KEY: usize = KEYS - 1;

pub const KEYS16: u16 = KEYS as u16;

pub const VARIABLE: usize = 32768;

pub const VARIABLE_END: usize = VARIABLE + 32;

pub const VARIABLE16: u16 = VARIABLE as u16;

pub const VARIABLE_END16: u16 = VARIABLE_END as u16;

pub const VALUE_ITEMS: usize = 2048;

// The lengths of the lent tables, and where what they hold starts (docs/TABLES.md).
pub const LENGTHS_START: usize = 2 + 256;

pub const TERMS_START: usize = LENGTHS_START + SLOTS;

pub const BYTES: usize = TERMS_START + 64 * SLOTS;

pub const USED: usize = 8;

pub const LABEL: usize = KEYS;

pub const SET_KEYS: usize = KEYS / 4;

pub const SETS: usize = 8 * SET_KEYS;

pub const CHAINS: usize = KEYS - 3;

pub const LINK: usize = KEYS + CHAINS + 1;

pub const FREE: usize = LINK - 1;

pub const ROOT: u32 = (8 * KEYS + 8) as u32;

// The log program: its input, its answer buffer, the buffer of a line.
pub const INPUT: usize = 65535;

pub const ANSWER: usize = 32768;

pub const LINE: usize = 2 * ANSWER + 64;

// The number of two bytes, high byte first: an item, a length, a slot.
pub fn number_at(t: &[u8], at: usize) -> usize
    requires { at + 1 < length t.now }
    ensures { (result ≡ get_or t.now at 0 * 256 + get_or t.now (at + 1) 0) × (result < 65536) }
{
    u16::from_be_bytes([t[at], t[at + 1]]) as usize
}
