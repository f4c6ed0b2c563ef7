//! A remainder that takes in eight bytes at a time, by eight tables ("slicing by 8").
ghost use Rattle.std.specs.Prelude.{◌≡◌, ℕ, ◌+◌, ◌*◌, ◌/◌, ◌%◌, ◌≤◌, length, take, drop, bit_xor};
ghost use Rattle.s3_checksums.specs.Crc.{after_byte, after_bits, after_bytes, number_of};
ghost use Rattle.s3_checksums.specs.Tables.{IsTable};

// The remainder after these bytes, from `remainder`.
pub(crate) fn absorbed(table: &[u64; 2048], remainder: u64, bytes: &[u8]) -> u64
    ensures { (generator : ℕ) → IsTable generator table.now
        → result ≡ after_bytes generator remainder bytes.now }
{
    let whole = bytes.len() / 8 * 8;
    let before = after_words(table, remainder, bytes);
    after_tail(table, before, &bytes[whole..])
}

// The remainder after the bytes that fill words of eight.
fn after_words(table: &[u64; 2048], mut remainder: u64, bytes: &[u8]) -> u64
    ensures { (generator : ℕ) → IsTable generator table.now
        → result ≡ after_bytes generator remainder (take (length bytes.now / 8 * 8) bytes.now) }
{
    'words: for i in 0..bytes.len() / 8 {
        remainder = after_word(table, remainder ^ word_at(bytes, 8 * i));
    }
    remainder
}

// The word whose bytes begin at `at`, the lowest first.
#[inline(always)]
fn word_at(bytes: &[u8], at: usize) -> u64
    requires { at + 8 ≤ length bytes.now }
    ensures { result ≡ number_of (take 8 (drop at bytes.now)) }
{
    u64::from_le_bytes([
        bytes[at],
        bytes[at + 1],
        bytes[at + 2],
        bytes[at + 3],
        bytes[at + 4],
        bytes[at + 5],
        bytes[at + 6],
        bytes[at + 7],
    ])
}

// The remainder after 64 bits, where `sum` is the remainder before them with their word added.
#[inline(always)]
fn after_word(table: &[u64; 2048], sum: u64) -> u64
    ensures { (generator : ℕ) → IsTable generator table.now → result ≡ after_bits generator 64 sum }
{
    table[1792 + (sum % 256) as usize]
        ^ table[1536 + ((sum >> 8) % 256) as usize]
        ^ table[1280 + ((sum >> 16) % 256) as usize]
        ^ table[1024 + ((sum >> 24) % 256) as usize]
        ^ table[768 + ((sum >> 32) % 256) as usize]
        ^ table[512 + ((sum >> 40) % 256) as usize]
        ^ table[256 + ((sum >> 48) % 256) as usize]
        ^ table[(sum >> 56) as usize]
}

// The remainder after fewer bytes than a word has, one at a time.
fn after_tail(table: &[u64; 2048], mut remainder: u64, bytes: &[u8]) -> u64
    ensures { (generator : ℕ) → IsTable generator table.now
        → result ≡ after_bytes generator remainder bytes.now }
{
    for byte in bytes {
        remainder = after_table(table, remainder, *byte);
    }
    remainder
}

// The remainder after one byte.
#[inline(always)]
fn after_table(table: &[u64; 2048], remainder: u64, byte: u8) -> u64
    ensures { (generator : ℕ) → IsTable generator table.now
        → result ≡ after_byte generator remainder byte }
{
    table[((remainder ^ u64::from(byte)) % 256) as usize] ^ (remainder >> 8)
}
