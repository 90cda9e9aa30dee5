//! A hash of the names of a slot.
ghost use Rattle.std.specs.Prelude.{◌+◌, ◌≤◌, length};

// Numbers whose bits are well mixed.
const KEYS: [u64; 6] = [
    0x9e37_79b9_7f4a_7c15,
    0xbf58_476d_1ce4_e5b9,
    0x94d0_49bb_1331_11eb,
    0xd6e8_feb8_6659_fd93,
    0xa076_1d64_78bd_642f,
    0xe703_7ed1_a0b4_28db,
];

/// A hash of the bytes. Of 16 to 96 bytes it leaves out the first sixteen, which all names of an inventory have in common:
/// `ManagedElement=` and a character. No branch depends on how many there are: where they end early, the last sixteen count
/// more than once.
#[inline(always)]
pub(crate) fn hash_of(bytes: &[u8]) -> u64 {
    if bytes.len() < 16 || bytes.len() > 96 {
        return hash_of_any(bytes);
    }
    let last = bytes.len() - 16;
    hash_of_piece(bytes, last.min(16), KEYS[0])
        .wrapping_add(hash_of_piece(bytes, last.min(32), KEYS[1]))
        .wrapping_add(hash_of_piece(bytes, last.min(48), KEYS[2]))
        .wrapping_add(hash_of_piece(bytes, last.min(64), KEYS[3]))
        .wrapping_add(hash_of_piece(bytes, last, KEYS[4]))
}

// A hash of few or many bytes, sixteen at a time.
#[cold]
#[inline(never)]
fn hash_of_any(bytes: &[u8]) -> u64 {
    let (pieces, rest) = bytes.as_chunks::<16>();
    let mut hash = bytes.len() as u64;
    for piece in pieces {
        hash = hash_of_piece(piece, 0, hash);
    }
    for byte in rest {
        hash = folded(hash ^ u64::from(*byte), KEYS[5]);
    }
    hash
}

// A hash of sixteen bytes.
#[inline(always)]
fn hash_of_piece(bytes: &[u8], at: usize, key: u64) -> u64
    requires { at + 16 ≤ length bytes.now }
{
    folded(word(bytes, at) ^ key, word(bytes, at + 8) ^ KEYS[5])
}

// Eight bytes as a number.
#[inline(always)]
fn word(bytes: &[u8], at: usize) -> u64
    requires { at + 8 ≤ length bytes.now }
{
    u64::from_le_bytes([
        bytes[at],
        bytes[at + 1],
        bytes[at + 2],
        bytes[at + 3],
        bytes[at + 4],
        bytes[at + 5],
        bytes[at + 6],
        bytes[at + 7],
    ])
}

// The halves of the product, one upon the other.
#[inline(always)]
fn folded(a: u64, b: u64) -> u64 {
    let product = a as u128 * b as u128;
    (product & 0xffff_ffff_ffff_ffff) as u64 ^ (product >> 64) as u64
}
