//! What a run finds: a folder and a script.

use crate::case::first_word;
use anyhow::{Result, bail};
use pd_io::Files;
use std::alloc::Global;

/// The numbers of the calls that fail, from 0 on.
#[derive(Drop)]
pub(crate) struct Failing {
    pub(crate) shelf: Vec<u64>,
    pub(crate) script: Vec<u64>,
    pub(crate) lines: Vec<u64>,
    pub(crate) pcm: Vec<u64>,
}

/// A file of the folder.
#[derive(Drop)]
struct Page {
    name: Vec<u8>,
    text: Vec<u8>,
}

/// The files of the folder, the script, how many bytes of it come at a time, and the calls that fail.
#[derive(Drop)]
pub(crate) struct Stage {
    alloc: Global,
    pages: Vec<Page>,
    pub(crate) script: Vec<u8>,
    pub(crate) piece: usize,
    pub(crate) failing: Failing,
}

impl Stage {
    fn new(alloc: Global) -> Stage {
        Stage {
            alloc,
            pages: Vec::new(alloc),
            script: Vec::new(alloc),
            piece: 4096,
            failing: Failing {
                shelf: Vec::new(alloc),
                script: Vec::new(alloc),
                lines: Vec::new(alloc),
                pcm: Vec::new(alloc),
            },
        }
    }

    /// `script TEXT`, `spaces COUNT`, `pieces BYTES`, `fails WHAT CALL`, `times COUNT TEXT` (so often more of the last file), or a
    /// file's name with its text.
    fn set(&mut self, part: &str) -> Result<()> {
        let (word, rest) = first_word(part);
        match word {
            "script" => self.script.extend_from_slice(rest.as_bytes())?,
            "spaces" => push_spaces(&mut self.script, number_of(rest)?)?,
            "pieces" => self.piece = number_of(rest)?,
            "fails" => self.failing.add(rest)?,
            "times" => self.repeat(rest)?,
            _ => self.add(word.as_bytes(), rest.as_bytes())?,
        }
        Ok(())
    }

    fn add(&mut self, name: &[u8], text: &[u8]) -> Result<()> {
        let name = Vec::from_slice(self.alloc, name)?;
        let text = Vec::from_slice(self.alloc, text)?;
        self.pages.push(Page { name, text })?;
        Ok(())
    }

    fn repeat(&mut self, part: &str) -> Result<()> {
        let (count, text) = first_word(part);
        let count = number_of(count)?;
        let Some(page) = self.pages.last_mut() else {
            bail!("no file: {part}");
        };
        for _ in 0..count {
            page.text.extend_from_slice(text.as_bytes())?;
        }
        Ok(())
    }

    /// The text of the last file.
    pub(crate) fn last_text(&self) -> Option<&[u8]> {
        Some(self.pages.last()?.text.as_slice())
    }

    /// The files, whose names have to differ.
    pub(crate) fn files(&self) -> Result<Files> {
        let mut files = Files::new(self.alloc);
        for page in self.pages.iter() {
            files.add(page.name.as_slice(), page.text.as_slice())?;
        }
        Ok(files)
    }
}

impl Failing {
    /// `shelf CALL`, `script CALL`, `lines CALL` or `pcm CALL`.
    fn add(&mut self, part: &str) -> Result<()> {
        let (word, rest) = first_word(part);
        let Ok(call) = rest.parse() else {
            bail!("no call: {part}");
        };
        match word {
            "shelf" => self.shelf.push(call)?,
            "script" => self.script.push(call)?,
            "lines" => self.lines.push(call)?,
            "pcm" => self.pcm.push(call)?,
            _ => bail!("nothing that fails: {part}"),
        }
        Ok(())
    }
}

fn number_of(text: &str) -> Result<usize> {
    match text.parse() {
        Ok(number) => Ok(number),
        Err(_) => bail!("no number: {text}"),
    }
}

fn push_spaces(script: &mut Vec<u8>, count: usize) -> Result<()> {
    for _ in 0..count {
        script.push(b' ')?;
    }
    Ok(())
}

/// What the parts of a case set.
pub(crate) fn stage_of(alloc: Global, parts: &str) -> Result<Stage> {
    let mut stage = Stage::new(alloc);
    for part in parts.split(" | ").filter(|part| !part.is_empty()) {
        stage.set(part)?;
    }
    Ok(stage)
}
