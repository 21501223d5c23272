// Replays the committed sample of the oracle's answers, data/sample.bin: each record's input is handed to the library,
// whose reply and output must be the record's expected bytes, and the file must end in its checksum. Prints how many
// records of each kind agree, or the first record that does not. oracle/README.md has the format.
#![tactic(auto)]

mod answers;
mod kinds;
mod lengths;
mod macroblocks;
mod neighbours;
mod numbers;
mod predictions;
mod report;
mod sample;
mod transforms;

use std::{fs, io};

fn main(rt: HostRuntime) -> io::Result<()> {
    match fs::open(&rt, "sample.bin") {
        Ok(mut file) => sample::replay(&rt, &mut file),
        Err(error) => {
            let said = format!(in rt.alloc(); "{error}")?;
            // the system's text alone, without the number that std puts after it
            match said.split_once(" (os error ") {
                Some((text, _)) => eprintln!(rt; "sample.bin: {text}"),
                None => eprintln!(rt; "sample.bin: {said}"),
            }
        }
    }
}
