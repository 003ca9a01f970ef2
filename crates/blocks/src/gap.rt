// Carrying a sum over a gap as long as a block, by a table of nibbles.
ghost use Rattle.std.specs.Prelude.{◌≡◌};
ghost use Rattle.crc.specs.Sum.{carried};
ghost use Rattle.blocks.specs.Fram.{block_size, joined_blocks};
ghost use Rattle.blocks.specs.Crossing.{gap_of};

// Entry 16 j + i is the sum i 16^j carried over 256 zero bytes. The proof of `across` tests every entry against that rule.
const GAP: [u16; 64] = [
    0x0000, 0x2df8, 0x5bf0, 0x7608, 0xb7e0, 0x9a18, 0xec10, 0xc1e8, 0x67d1, 0x4a29, 0x3c21, 0x11d9,
    0xd031, 0xfdc9, 0x8bc1, 0xa639, 0x0000, 0xcfa2, 0x9755, 0x58f7, 0x26bb, 0xe919, 0xb1ee, 0x7e4c,
    0x4d76, 0x82d4, 0xda23, 0x1581, 0x6bcd, 0xa46f, 0xfc98, 0x333a, 0x0000, 0x9aec, 0x3dc9, 0xa725,
    0x7b92, 0xe17e, 0x465b, 0xdcb7, 0xf724, 0x6dc8, 0xcaed, 0x5001, 0x8cb6, 0x165a, 0xb17f, 0x2b93,
    0x0000, 0xe659, 0xc4a3, 0x22fa, 0x8157, 0x670e, 0x45f4, 0xa3ad, 0x0abf, 0xece6, 0xce1c, 0x2845,
    0x8be8, 0x6db1, 0x4f4b, 0xa912,
];

// A sum carried over a block's gap: each of its four digits by the table.
fn cross(gap: &[u16; 64], sum: u16) -> u16
    requires { gap.now ≡ gap_of }
    ensures { result ≡ carried block_size sum }
{
    let low = sum % 256;
    let high = sum / 256;
    let a = (low % 16) as usize;
    let b = (low / 16) as usize + 16;
    let c = (high % 16) as usize + 32;
    let d = (high / 16) as usize + 48;
    (gap[a] ^ gap[b]) ^ (gap[c] ^ gap[d])
}

// The sum that goes on from `start` over whole blocks, by their sums.
pub fn across(start: u16, sums: &[u16]) -> u16
    ensures { result ≡ joined_blocks start sums.now }
{
    // A copy: of `&GAP` the address is made anew at each block, which then takes 21 instructions on x86-64 and not 20.
    let gap = GAP;
    let mut sum = start;
    for next in sums {
        sum = cross(&gap, sum ^ 0xffff) ^ *next;
    }
    sum
}
