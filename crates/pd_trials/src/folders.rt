//! Folders: the one in which the test runs, and one in memory.

use pd_io::{Fetched, Files, FolderShelf, MAX_FILE, MemShelf, Shelf, ShelfError};
use std::alloc::{AllocError, Global};
use std::test::Fail;
use std::{fs, io};

/// What is asked of a shelf.
#[derive(Clone, Copy)]
enum Call {
    Fetch(&'static [u8]),
    Put(&'static [u8], &'static [u8]),
}

/// The answer to a fetch, in a word.
fn fetched<H: Shelf>(shelf: &mut H, name: &[u8], into: &mut Vec<u8>) -> &'static str {
    match shelf.fetch(name, into) {
        Ok(Fetched::Found) => "found",
        Ok(Fetched::Absent) => "absent",
        Ok(Fetched::TooLong) => "too long",
        Err(ShelfError::Failed) => "failed",
        Err(ShelfError::NoMemory) => "no memory",
    }
}

/// How a put ended, in a word.
fn put<H: Shelf>(shelf: &mut H, name: &[u8], bytes: &[u8]) -> &'static str {
    match shelf.put(name, bytes) {
        Ok(()) => "held",
        Err(ShelfError::Failed) => "failed",
        Err(ShelfError::NoMemory) => "no memory",
    }
}

fn answer<H: Shelf>(shelf: &mut H, call: Call, into: &mut Vec<u8>) -> &'static str {
    match call {
        Call::Fetch(name) => fetched(shelf, name, into),
        Call::Put(name, bytes) => put(shelf, name, bytes),
    }
}

/// The number of the first call that isn't answered by its word.
fn first_wrong<H: Shelf>(
    shelf: &mut H,
    rows: &[(Call, &str)],
    into: &mut Vec<u8>,
) -> Option<usize> {
    for (number, (call, word)) in rows.iter().enumerate() {
        if answer(shelf, *call, into) != *word {
            return Some(number);
        }
    }
    None
}

const HELD: [(Call, &str); 4] = [
    (Call::Fetch(b"pd_trials_1.pd"), "absent"),
    (Call::Put(b"pd_trials_1.pd", b"longer"), "held"),
    (Call::Put(b"pd_trials_1.pd", b"text"), "held"),
    (Call::Fetch(b"pd_trials_1.pd"), "found"),
];

#[test]
fn files_are_put_and_fetched(rt: HostRuntime) -> Result<(), Fail> {
    let _ = fs::remove_file(&rt, "pd_trials_1.pd");
    let mut shelf = FolderShelf::new(&rt);
    let mut into = Vec::new(rt.alloc());
    assert_eq!(rt; first_wrong(&mut shelf, &HELD, &mut into), None);
    assert_eq!(rt; into.as_slice(), b"text".as_slice());
    assert_eq!(rt; shelf.faults(), 0);
    fs::remove_file(&rt, "pd_trials_1.pd")?;
    Ok(())
}

/// Names that are none of files in the folder; that of a file that is there, by another way to it, among them.
const ELSEWHERE: [(Call, &str); 8] = [
    (Call::Put(b"pd_trials_2.pd", b"text"), "held"),
    (Call::Fetch(b"./pd_trials_2.pd"), "absent"),
    (Call::Fetch(b"\xff"), "absent"),
    (Call::Fetch(b"."), "absent"),
    (Call::Fetch(b"a\0b"), "absent"),
    (Call::Fetch(&[b'a'; 258]), "absent"),
    (Call::Put(b".", b"text"), "failed"),
    (Call::Put(b"./pd_trials_2.pd", b"text"), "failed"),
];

#[test]
fn other_names_are_absent(rt: HostRuntime) -> Result<(), Fail> {
    let mut shelf = FolderShelf::new(&rt);
    let mut into = Vec::new(rt.alloc());
    assert_eq!(rt; first_wrong(&mut shelf, &ELSEWHERE, &mut into), None);
    assert_eq!(rt; shelf.faults(), 2);
    fs::remove_file(&rt, "pd_trials_2.pd")?;
    Ok(())
}

/// Makes a file of a length, and tells how a fetch of it is answered and how many bytes it gives.
fn fetched_at(rt: &HostRuntime, length: usize) -> io::Result<(&'static str, usize)> {
    let file = fs::OpenOptions::new()
        .write(true)
        .create(true)
        .open(rt, "pd_trials_3.pd")?;
    file.set_len(length as u64)?;
    let mut into = Vec::new(rt.alloc());
    let word = fetched(&mut FolderShelf::new(rt), b"pd_trials_3.pd", &mut into);
    Ok((word, into.len()))
}

#[test]
fn longest_file(rt: HostRuntime) -> Result<(), Fail> {
    assert_eq!(rt; fetched_at(&rt, MAX_FILE)?, ("found", MAX_FILE));
    assert_eq!(rt; fetched_at(&rt, MAX_FILE + 1)?, ("too long", 0));
    fs::remove_file(&rt, "pd_trials_3.pd")?;
    Ok(())
}

fn two_files(alloc: Global) -> Result<Files, AllocError> {
    let mut files = Files::new(alloc);
    files.add(b"a", b"1")?;
    files.add(b"b", b"22")?;
    Ok(files)
}

const IN_MEMORY: [(Call, &str); 6] = [
    (Call::Fetch(b"b"), "found"),
    (Call::Put(b"c", b"333"), "held"),
    (Call::Fetch(b"a"), "failed"),
    (Call::Put(b"a", b"4"), "held"),
    (Call::Fetch(b"d"), "absent"),
    (Call::Fetch(b"a"), "found"),
];

#[test]
fn shelf_in_memory(rt: HostRuntime) -> Result<(), Fail> {
    let files = two_files(rt.alloc())?;
    assert!(rt; files.has_distinct_names());
    let mut shelf = MemShelf::new(rt.alloc(), files, Vec::from_slice(rt.alloc(), &[2])?);
    let mut into = Vec::new(rt.alloc());
    assert_eq!(rt; first_wrong(&mut shelf, &IN_MEMORY, &mut into), None);
    assert_eq!(rt; into.as_slice(), b"4".as_slice());
    Ok(())
}
