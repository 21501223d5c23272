// A still file of at most 22 macroblocks, by its parts (docs/STILL-FILE.md), and its planes as the library draws them.
ghost use Rattle.std.specs.Prelude.{◌≡◌, ◌≤◌, length};

#[derive(Clone, Copy)]
pub struct Still<'a> {
    bytes: &'a [u8; 65536],
    count: usize,
    ghost few: { count ≤ 22 },
}

// As many shorts as out has room for, low byte first.
// Kept: `replay` has these lines too; one for both would be a public function of a third crate, no plainer.
fn shorts(bytes: &[u8], out: &mut [i16]) {
    for (number, pair) in out.iter_mut().zip(bytes.as_chunks::<2>().0) {
        *number = i16::from_le_bytes(*pair);
    }
}

// The number of macroblocks that a still file and its planes have by their lengths; 0 where the two do not fit.
fn count_of(still: usize, planes: usize) -> usize
    ensures { result ≤ 22 }
{
    let count = planes / 384;
    if count > 22 || planes != 384 * count || still != 24 + 819 * count {
        return 0;
    }
    count
}

impl<'a> Still<'a> {
    // Of a file and of planes that are so long.
    pub fn new(bytes: &'a [u8; 65536], len: usize, planes: usize) -> Self {
        let count = count_of(len, planes);
        Still { bytes, count }
    }

    // How many macroblocks it has.
    pub fn count(&self) -> usize
        ensures { result ≤ 22 }
    {
        self.count
    }

    fn number(&self, at: usize) -> usize
        requires { at ≤ 65532 }
        ensures { result ≤ 4294967295 }
    {
        let four = [
            self.bytes[at],
            self.bytes[at + 1],
            self.bytes[at + 2],
            self.bytes[at + 3],
        ];
        u32::from_le_bytes(four) as usize
    }

    // Kept: four numbers of the file's head, a name each.
    // In pixels.
    pub fn width(&self) -> usize {
        self.number(8)
    }

    pub fn height(&self) -> usize {
        self.number(12)
    }

    // In macroblocks.
    pub fn cols(&self) -> usize
        ensures { result ≤ 4294967295 }
    {
        self.number(16)
    }

    pub fn rows(&self) -> usize {
        self.number(20)
    }

    // Whether the file begins as one and has a macroblock.
    fn is_one(&self) -> bool {
        let bytes = self.bytes;
        self.count > 0 && bytes.starts_with(b"ZSTILL1\n")
    }

    // The three mode bytes, the sixteen sub-block modes and the 400 coefficients of macroblock k.
    pub fn modes(&self, k: usize) -> [u8; 3]
        // Kept: a macroblock at most 22, here and in `loose`, is a counter's range: a type would be opened at once, no plainer.
        requires { k ≤ 22 }
    {
        let at = 24 + 3 * k;
        [self.bytes[at], self.bytes[at + 1], self.bytes[at + 2]]
    }

    pub fn sub_modes(&self, k: usize) -> &'a [u8]
        requires { k ≤ 22 }
        ensures { length result.now ≡ 16 }
    {
        let bytes = self.bytes;
        let at = 24 + 3 * self.count + 16 * k;
        &bytes[at..at + 16]
    }

    pub fn put_coefficients(&self, k: usize, out: &mut [i16])
        requires { k ≤ 22 }
    {
        let bytes = self.bytes;
        let at = 24 + 19 * self.count + 800 * k;
        shorts(&bytes[at..at + 800], out);
    }
}

// Draws the still, and answers as the library does.
fn draw(
    still: &Still,
    y: &mut [u8; 5632],
    u: &mut [u8; 1408],
    v: &mut [u8; 1408],
    clipped: &mut [u64; 1],
) -> u64 {
    let bytes = still.bytes;
    let n = still.count();
    let sub_modes = 24 + 3 * n;
    let coefficients = 24 + 19 * n;
    let mut coeffs = [0; 8800];
    shorts(&bytes[coefficients..], &mut coeffs);
    zopredil::stills::zopredil_still_alone(
        still.cols(),
        still.rows(),
        &bytes[24..sub_modes],
        &bytes[sub_modes..coefficients],
        &coeffs[..400 * n],
        &mut y[..256 * n],
        &mut u[..64 * n],
        &mut v[..64 * n],
        clipped,
    )
}

// A still's planes, and how many sums were clipped.
#[derive(Drop)]
pub struct Planes {
    y: [u8; 5632],
    u: [u8; 1408],
    v: [u8; 1408],
    clipped: u64,
}

impl Planes {
    // Of no still.
    pub fn blank() -> Self {
        Planes {
            y: [0; 5632],
            u: [0; 1408],
            v: [0; 1408],
            clipped: 0,
        }
    }

    // Draws the still as the library does, and answers whether it did. A file that is no still's leaves all as it is.
    pub fn draw(&mut self, still: &Still) -> bool {
        let mut clipped = [self.clipped; 1];
        let drawn = still.is_one()
            && draw(still, &mut self.y, &mut self.u, &mut self.v, &mut clipped) == 0;
        self.clipped = clipped[0];
        drawn
    }

    // Kept: the three planes of a still, a name each.
    pub fn y(&self, still: &Still) -> &[u8] {
        &self.y[..256 * still.count()]
    }

    pub fn u(&self, still: &Still) -> &[u8] {
        &self.u[..64 * still.count()]
    }

    pub fn v(&self, still: &Still) -> &[u8] {
        &self.v[..64 * still.count()]
    }

    pub fn clipped(&self) -> u64 {
        self.clipped
    }

    // Whether they are the planes that stand one behind another in these bytes.
    pub fn are(&self, still: &Still, bytes: &[u8; 65536]) -> bool {
        let n = still.count();
        self.y(still) == &bytes[..256 * n]
            && self.u(still) == &bytes[256 * n..320 * n]
            && self.v(still) == &bytes[320 * n..384 * n]
    }
}
