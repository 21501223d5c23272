// Draws the stills of data/, which real encoders made, and holds each plane to that of their decoders before the loop
// filter. Then draws the macroblocks of each once more, loose on a shelf, and once more with one of them damaged. Prints a
// line for each still: its file, its sizes in pixels and in macroblocks, the checksums of its two files, and whether all
// pixels are equal, all loose macroblocks, and all but the damaged one, which is refused. oracle/README.md says which stills
// they are.
#![tactic(auto)]

ghost use Rattle.std.specs.Prelude.{◌≤◌, length, IfOk};

mod loose;
mod still_file;
mod verdict;

use checksum::Checksum;
use std::rt::Files;
use std::{fs, io};
use still_file::Still;
use verdict::Verdict;

// Reads a file, and answers its length; 0 for one that cannot be opened, after a line that says why.
fn read(rt: &(impl Files + Eprint + Alloc), name: &str, bytes: &mut [u8]) -> io::Result<usize>
    ensures { IfOk result (λ n. n ≤ length bytes.new) }
{
    match fs::open(rt, name) {
        Ok(mut file) => reading::read_full(&mut file, bytes),
        Err(error) => {
            let said = format!(in rt.alloc(); "{error}")?;
            // the system's text alone, without the number that std puts after it
            match said.split_once(" (os error ") {
                Some((text, _)) => eprintln!(rt; "{name}: {text}")?,
                None => eprintln!(rt; "{name}: {said}")?,
            }
            Ok(0)
        }
    }
}

fn replay(
    rt: &(impl Files + Print + Eprint + Alloc),
    name: &str,
    planes_name: &str,
) -> io::Result<()> {
    let mut bytes = [0; 65536];
    let mut planes = [0; 65536];
    let len = read(rt, name, &mut bytes)?;
    let planes_len = read(rt, planes_name, &mut planes)?;
    let still = Still::new(&bytes, len, planes_len);
    let (width, height, cols, rows) = (still.width(), still.height(), still.cols(), still.rows());
    print!(rt; "{name} {width}x{height}, {cols} by {rows}")?;
    // Of each file: bytes that no pixel depends on count too.
    let Checksum { a, b } = Checksum::start().with_bytes(&bytes[..len]);
    print!(rt; ", checksum {a} {b}")?;
    let Checksum { a, b } = Checksum::start().with_bytes(&planes[..planes_len]);
    print!(rt; ", checksum {a} {b}")?;
    let verdict = Verdict::of(&still, &planes);
    println!(rt; ": {verdict}")
}

fn main(rt: HostRuntime) -> io::Result<()> {
    replay(&rt, "webp-16x16.still", "webp-16x16.planes")?;
    replay(&rt, "vpx-33x31.still", "vpx-33x31.planes")?;
    replay(&rt, "webp-64x64.still", "webp-64x64.planes")?;
    replay(&rt, "vpx-200x16.still", "vpx-200x16.planes")?;
    replay(&rt, "webp-noisy-176x32.still", "webp-noisy-176x32.planes")
}
