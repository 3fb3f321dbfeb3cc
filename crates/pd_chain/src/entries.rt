// Numbers under keys, in the order of their keys.
ghost use Rattle.std.specs.Prelude.{◌≡◌, ◌<◌, length, slice_index};
ghost use Rattle.pd_chain.specs.Entries.{values_at, IsByKey, IsStart, IsEnd};

/// A number under a key.
#[derive(Clone, Copy)]
pub struct Entry {
    pub key: u32,
    pub value: u32,
}

// Where the entries of the key begin, or would begin.
fn start_of(entries: &[Entry], key: u32) -> usize
    requires { IsByKey entries.now }
    ensures { IsStart entries.now key result }
{
    entries.partition_point(|entry| entry.key < key)
}

// Where the entries of the key end.
fn end_of(entries: &[Entry], key: u32) -> usize
    requires { IsByKey entries.now }
    ensures { IsEnd entries.now key result }
{
    entries.partition_point(|entry| entry.key <= key)
}

// How many values are under the key.
pub fn count_at(entries: &[Entry], key: u32) -> usize
    requires { IsByKey entries.now }
    ensures { result ≡ length (values_at entries.now key) }
{
    let start = start_of(entries, key);
    let end = end_of(entries, key);
    end - start
}

// The i-th of them, counted from 0.
pub fn value_at(entries: &[Entry], key: u32, i: usize) -> u32
    requires by_key { IsByKey entries.now }
    requires there { i < length (values_at entries.now key) }
    ensures { result ≡ slice_index (values_at entries.now key) i }
{
    let start = start_of(entries, key);
    entries[start + i].value
}

// The first of them, or 0 where there is none.
pub fn first_at(entries: &[Entry], key: u32) -> u32
    requires { IsByKey entries.now }
    ensures { result ≡ slice_index (values_at entries.now key) 0 }
{
    let start = start_of(entries, key);
    if start < entries.len() && entries[start].key == key {
        entries[start].value
    } else {
        0
    }
}
