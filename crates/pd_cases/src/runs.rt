//! Runs of equal texts.

use anyhow::Result;
use std::alloc::Global;

/// Whether the next text is another one.
fn is_last(items: &[String], i: usize) -> bool {
    match (items.get(i), items.get(i.saturating_add(1))) {
        (Some(item), Some(next)) => item.as_str() != next.as_str(),
        _ => true,
    }
}

fn push_run(alloc: Global, count: u64, item: &str, mark: &str, said: &mut String) -> Result<()> {
    said.push_str(mark)?;
    if count > 1 {
        said.push_str(format!(in alloc; "{count} x ")?.as_str())?;
    }
    said.push_str(item)?;
    Ok(())
}

/// Puts texts, each behind a mark; of a run of equal ones, how many there are and one of them.
pub(crate) fn push_runs(
    alloc: Global,
    items: &[String],
    mark: &str,
    said: &mut String,
) -> Result<()> {
    let mut count: u64 = 0;
    for i in 0..items.len() {
        count = count.saturating_add(1);
        if is_last(items, i) {
            push_run(alloc, count, items[i].as_str(), mark, said)?;
            count = 0;
        }
    }
    Ok(())
}
