// The n macroblocks of a drawn still as the items of a shelf, in another order, each with its own neighbours alone: once as
// jobs, once as lists of bytes.
ghost use Rattle.std.specs.Prelude.{◌<◌, ◌≤◌};

use crate::still_file::{Planes, Still};
use macroblock::{IntraUvMode, IntraYMode, MbModes, MbNeighbors, reply};
use shelf_items::Job;

// The items, and what they must be drawn as: 384 pixels and a reply each, and the count of clipped sums.
#[derive(Drop)]
pub struct Shelf {
    count: usize,
    modes: [u8; 66],
    records: [u8; 1782],
    sub_modes: [u8; 352],
    coeffs: [i16; 8800],
    pixels: [u8; 8448],
    replies: [u8; 22],
    clipped: u64,
    ghost few: { count ≤ 22 },
}

// What a shelf writes, and what is there before.
#[derive(Drop)]
struct Answer {
    pixels: [u8; 8448],
    replies: [u8; 22],
    clipped: [u64; 1],
}

const FILL: u8 = 0xA5;

const FILL_COUNT: u64 = 0xA5;

impl Answer {
    fn blank() -> Self {
        Answer {
            pixels: [FILL; 8448],
            replies: [FILL; 22],
            clipped: [FILL_COUNT; 1],
        }
    }
}

// The macroblock that item i is. Each comes once, since 7 divides no still's number of macroblocks.
fn macroblock_of(i: usize, n: usize) -> usize
    requires { (i < n) × (n ≤ 22) }
    ensures { result < n }
{
    (7 * i + 3) % n
}

// The column and the row of a macroblock in its still.
fn place_of(k: usize, cols: usize) -> (usize, usize)
    ensures { (result.0 ≤ k) × (result.1 ≤ k) }
{
    if cols == 0 {
        return (0, 0);
    }
    (k % cols, k / cols)
}

// The neighbours of macroblock k in the finished planes, the right-hand pixels as for a still that comes alone.
fn neighbors_of(still: &Still, planes: &Planes, k: usize) -> MbNeighbors {
    let (cols, rows) = (still.cols(), still.rows());
    let (col, row) = place_of(k, cols);
    let (y, u, v) = (planes.y(still), planes.u(still), planes.v(still));
    let right = right_pixels::right_pixels(y, cols, rows, row).unwrap_or([0; 4]);
    gathering::gather(y, u, v, cols, rows, col, row, right).unwrap_or(MbNeighbors::absent())
}

fn job_of(still: &Still, planes: &Planes, k: usize) -> Job
    requires { k ≤ 22 }
{
    let [luma, chroma, skip] = still.modes(k);
    let modes = MbModes {
        y: IntraYMode::try_from(luma).unwrap_or(IntraYMode::Dc),
        uv: IntraUvMode::try_from(chroma).unwrap_or(IntraUvMode::Dc),
        skip: skip == 1,
    };
    let neighbors = neighbors_of(still, planes, k);
    Job { modes, neighbors }
}

// The rows of N pixels that the plane has from row `row` and column `column` on.
fn cut<const N: usize>(plane: &[u8], stride: usize, row: usize, column: usize, block: &mut [u8])
    requires { 0 < N }
{
    let mut row = row;
    for line in block.chunks_exact_mut(N) {
        slices::copy(line, row_part::row_part(plane, stride, row, column, N));
        row = row.wrapping_add(1);
    }
}

// Macroblock k of the finished planes, as a shelf writes it.
fn cut_macroblock(still: &Still, planes: &Planes, k: usize, out: &mut [u8; 384])
    requires { k ≤ 22 }
{
    let cols = still.cols();
    let (col, row) = place_of(k, cols);
    // In U and V; in Y twice as much.
    let stride = 8 * cols;
    let (row, column) = (8 * row, 8 * col);
    cut::<16>(
        planes.y(still),
        2 * stride,
        2 * row,
        2 * column,
        &mut out[..256],
    );
    cut::<8>(planes.u(still), stride, row, column, &mut out[256..320]);
    cut::<8>(planes.v(still), stride, row, column, &mut out[320..]);
}

impl Shelf {
    // Of a drawn still, its items not laid yet.
    pub fn blank(still: &Still, planes: &Planes) -> Self {
        let count = still.count();
        Shelf {
            count,
            modes: [0; 66],
            records: [0; 1782],
            sub_modes: [0; 352],
            coeffs: [0; 8800],
            pixels: [0; 8448],
            replies: [0; 22],
            clipped: planes.clipped(),
        }
    }

    // Lays all items, and answers their jobs. The jobs after the n-th are not looked at.
    pub fn lay_all(&mut self, still: &Still, planes: &Planes) -> [Job; 32] {
        let n = still.count();
        let mut jobs = [job_of(still, planes, 0); 32];
        // Kept: no plainer, since item i is another macroblock's.
        for i in 0..n {
            jobs[i] = self.lay(still, planes, macroblock_of(i, n), i);
        }
        jobs
    }

    // Macroblock k as item i: its bytes, its coefficients and its pixels, and as the answer its job.
    fn lay(&mut self, still: &Still, planes: &Planes, k: usize, i: usize) -> Job
        requires { (k ≤ 22) × (i < 22) }
    {
        let mut pixels = [0; 384];
        cut_macroblock(still, planes, k, &mut pixels);
        self.pixels[384 * i..384 * i + 384].copy_from_slice(&pixels);
        self.modes[3 * i..3 * i + 3].copy_from_slice(&still.modes(k));
        self.sub_modes[16 * i..16 * i + 16].copy_from_slice(still.sub_modes(k));
        still.put_coefficients(k, &mut self.coeffs[400 * i..400 * i + 400]);
        let job = job_of(still, planes, k);
        self.records[81 * i..81 * i + 81].copy_from_slice(&record_bytes::bytes_of(job.neighbors));
        job
    }

    // Whether it answered with these pixels, these replies and this count.
    fn has(&self, answer: &Answer) -> bool {
        let n = self.count;
        n > 0
            && answer.clipped[0] == self.clipped
            && &answer.replies[..n] == &self.replies[..n]
            && &answer.pixels[..384 * n] == &self.pixels[..384 * n]
    }

    // Whether the shelf of the jobs does.
    pub fn agrees_of_jobs(&self, jobs: [Job; 32]) -> bool {
        let n = self.count;
        let mut answer = Answer::blank();
        let answered = shelf::shelf_few(
            jobs,
            n,
            &self.sub_modes[..16 * n],
            &self.coeffs[..400 * n],
            &mut answer.pixels[..384 * n],
            &mut answer.replies[..n],
            &mut answer.clipped,
        );
        answered.is_ok() && self.has(&answer)
    }

    // Whether the shelf of the items' bytes does.
    pub fn agrees_of_bytes(&self) -> bool {
        let n = self.count;
        let mut answer = Answer::blank();
        let number = zopredil::macroblocks::zopredil_shelf(
            &self.modes[..3 * n],
            &self.records[..81 * n],
            &self.sub_modes[..16 * n],
            &self.coeffs[..400 * n],
            &mut answer.pixels[..384 * n],
            &mut answer.replies[..n],
            &mut answer.clipped,
        );
        number == reply::DONE && self.has(&answer)
    }

    // The count of item i, alone on its shelf.
    fn clipped_of(&self, i: usize) -> u64
        requires { i < 22 }
    {
        let mut pixels = [FILL; 384];
        let mut replies = [FILL; 1];
        let mut clipped = [FILL_COUNT; 1];
        zopredil::macroblocks::zopredil_shelf(
            &self.modes[3 * i..3 * i + 3],
            &self.records[81 * i..81 * i + 81],
            &self.sub_modes[16 * i..16 * i + 16],
            &self.coeffs[400 * i..400 * i + 400],
            &mut pixels,
            &mut replies,
            &mut clipped,
        );
        clipped[0]
    }

    // Whether it does with the item in the middle damaged, once in its skip byte and then in the first mark of its record: that
    // item must have reply 8, 384 zeros and no part in the count.
    pub fn agrees_damaged(&mut self) -> bool {
        let i = self.count / 2;
        self.clipped = self.clipped.wrapping_sub(self.clipped_of(i));
        self.pixels[384 * i..384 * i + 384].fill(0);
        self.replies[i] = 8;
        let skip = self.modes[3 * i + 2];
        self.modes[3 * i + 2] = 2;
        let agrees = self.agrees_of_bytes();
        self.modes[3 * i + 2] = skip;
        self.records[81 * i] = 2;
        agrees && self.agrees_of_bytes()
    }
}
