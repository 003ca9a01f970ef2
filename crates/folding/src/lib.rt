// Many bytes of a CRC at once, by words of 32 bits and exclusive or alone. Modulo the polynomial x^16 is x^12 + x^5 + 1.
// Squared again and again (with no mixed terms, since 1 + 1 is 0), that says the same of x^8, of x^16 and of x^32 in the
// place of x. So a word of 8, 16 or 32 bits may be left out of a list, if it is put on the words 16 - 12, 16 - 5 and 16
// places after it. That the sum stays the same is proved in crc (`sixteen_bytes_stand_for_all`).
#![tactic(auto)]

ghost use Rattle.std.specs.Prelude.{◌≡◌, ◌++◌, ◌+◌, ◌%◌, ◌≤◌, ◌<◌, length, take, drop};
ghost use Rattle.folding.specs.Folding.{words_of, word_at, halves_of, folded, low_bytes, reduced};

// How many words a fold leaves: half of what it is given.
const LEFT: usize = 16;

// How many bytes those are.
pub const CHUNK: usize = 64;

// The word at a place, its low byte first.
fn word(bytes: &[u8], at: usize) -> u32
    requires { at + 4 ≤ length bytes.now }
    ensures { result ≡ word_at bytes.now at }
{
    u32::from_le_bytes([bytes[at], bytes[at + 1], bytes[at + 2], bytes[at + 3]])
}

// Copies the upper half over the lower. Not by `copy_from_slice`, which makes numbers of two addresses and compares them: an
// archive for another processor could not be made of that (tools/module).
fn lower(words: &mut [u32; 32])
    ensures { words.new ≡ drop 16 words.old ++ drop 16 words.old }
{
    for i in 0..LEFT {
        words[i] = words[i + LEFT];
    }
}

// Sets the upper half to a chunk's words.
fn load(words: &mut [u32; 32], chunk: &[u8])
    requires { length chunk.now ≡ 64 }
    ensures { words.new ≡ take 16 words.old ++ words_of chunk.now }
{
    for i in 0..LEFT {
        words[i + LEFT] = word(chunk, i * 4);
    }
}

// Leaves the lower half out, word by word, and puts each on three of those after it. The lower half is then of no use.
fn fold(words: &mut [u32; 32])
    ensures { drop 16 words.new ≡ folded 16 words.old }
{
    for i in 0..LEFT {
        let first = words[i];
        words[i + 4] ^= first;
        words[i + 11] ^= first;
        words[i + LEFT] ^= first;
    }
}

// Spreads the upper half over the whole, each word as two digits of base `base`, the low one first. None is overwritten
// before it is read: i * 2 + 1 is at most i + LEFT.
fn halve(words: &mut [u32; 32], base: u32)
    requires { 0 < base }
    ensures { words.new ≡ halves_of base (drop 16 words.old) }
{
    for i in 0..LEFT {
        let split = words[i + LEFT];
        words[i * 2] = split % base;
        words[i * 2 + 1] = split / base;
    }
}

// The low byte of each word of the upper half.
fn low_bytes(words: &[u32; 32]) -> [u8; 16]
    ensures { result ≡ low_bytes (drop 16 words.now) }
{
    let mut low = [0u8; 16];
    for (i, byte) in low.iter_mut().enumerate() {
        *byte = (words[i + LEFT] % 256) as u8;
    }
    low
}

// Sixteen bytes that stand for whole chunks. While there are chunks, the upper half of `words` stands for those before;
// each chunk's words come behind them, and all are folded.
pub fn reduce(start: u16, bytes: &[u8]) -> [u8; 16]
    requires { (64 ≤ length bytes.now) × (length bytes.now % 64 ≡ 0) }
    ensures { result ≡ reduced start bytes.now }
{
    let (first, rest) = bytes.split_at(CHUNK);
    let mut words = [0; 32];
    load(&mut words, first);
    words[LEFT] ^= u32::from(start);
    for chunk in rest.chunks_exact(CHUNK) {
        lower(&mut words);
        load(&mut words, chunk);
        fold(&mut words);
    }
    halve(&mut words, 65536);
    fold(&mut words);
    halve(&mut words, 256);
    fold(&mut words);
    low_bytes(&words)
}
