//! `pd_cases`: reads cases from standard input, one a line, and prints for each what the crates make of it.
//!
//! `name TEXT` asks what a text names, `size RATE TEXT` what it counts at a rate, and `hear TEXT | EVENT | EVENT
//! ..` what its box says of each event: `INLET SELECTOR ATOMS`, `fire` or `load`. `play WORDS | PART | PART ..`
//! plays by the words of a command line; a part is `NAME TEXT`, a file of the folder, or `script TEXT`, `spaces
//! COUNT` (so many blanks of the script), `pieces BYTES` (of the script, at a time), `fails WHAT CALL` (`shelf`,
//! `script`, `lines` or `pcm`), or `times COUNT TEXT` (so often more of the last file). `tree PART | PART ..` grows
//! the first file, as `main.pd`, and tells its tree; `refusals` tells the texts of the refusals of growth.
//! `document TEXT` reads a document and writes it, and `times COUNT TEXT` behind a bar is more of its text; `cuts
//! TEXT` and `semicolons TEXT` do so with each beginning of a text whose line breaks are told by `¶`, and with a
//! semicolon in place of each byte in turn, and tell what comes of it in short, where it changes;
//! `command RECORD` tells what a record of the script says; `edit TEXT | RECORD | RECORD ..` makes each record's
//! edit in the document of a text. `order COUNT | SOURCE SINK, .. | CHANGE | CHANGE ..` tells the order of a graph
//! of wires, and mends it after each change: `+ SOURCE SINK` or `- PLACE`, where the wire at that place goes. Words
//! are separated by blanks, and an empty line is no case. A line that is no case ends the run with status 1, and so
//! does want of memory.
//!
//! It is proved to be safe and no more. The table in `stdin`, with what is expected in `stdout`, shows what the
//! crates give with ample memory, since a crate with tests of its own is proved twice: names, ports and sizes,
//! hearings, texts read and written, records, edits of documents, orders and their mends, trees (with documents at
//! their limits and one past them), and whole runs with failing calls, sounding patches among them. What is
//! expected comes from Pd's manual and the definitions, and not from the program.
#![tactic(auto)]

mod case;
mod documents;
mod edits;
mod harms;
mod hearing;
mod naming;
mod orders;
mod playing;
mod refusals;
mod runs;
mod said;
mod shown;
mod stage;
mod trees;

use anyhow::Result;
use std::io::{BufRead, BufReader};
use std::process::ExitCode;

fn run(rt: &(impl AllocGlobal + Input + Print)) -> Result<()> {
    for line in BufReader::new(rt.alloc(), rt.reader())?.lines(rt.alloc()) {
        let line = line?;
        if !line.is_empty() {
            let answer = case::answer(rt.alloc(), line.as_str())?;
            println!(rt; "{line} =>{answer}")?;
        }
    }
    Ok(())
}

fn main(rt: HostRuntime) -> ExitCode {
    match run(&rt) {
        Ok(()) => ExitCode::SUCCESS,
        Err(error) => {
            let _ = eprintln!(rt; "pd_cases: {error}");
            ExitCode::FAILURE
        }
    }
}
