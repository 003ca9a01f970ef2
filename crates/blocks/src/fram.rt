// An FRAM and its kept sums, lent together.
ghost use Rattle.std.specs.Prelude.{◌≡◌, length};
ghost use Rattle.blocks.specs.Fram.{block_start};

// The bytes of an FRAM, and one sum for each block of them.
#[derive(Drop)]
pub struct Fram<'b, 's> {
    pub bytes: &'b mut [u8],
    pub sums: &'s mut [u16],
    ghost fits: { length bytes.now ≡ block_start (length sums.now) },
}
