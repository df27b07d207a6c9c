//! Reads graph files on standard input and prints their drive-time book, or one line that says why there is none.

#![tactic(auto)]

use anyhow::anyhow;
use booking::{MOST_BYTES, Page, page_for};
use std::io::{Read, Write};

fn main(rt: HostRuntime) -> anyhow::Result<()> {
    let mut input = Vec::new(rt.alloc());
    // One byte more than is admitted, so that an input that is too long shows.
    rt.stdin()
        .take(MOST_BYTES as u64 + 1)
        .read_to_end(&mut input)?;
    let page = page_for(rt.alloc(), &input)?;
    rt.stdout().write_all(page.as_bytes())?;
    match page {
        Page::Book(_) => Ok(()),
        Page::Refused(_) => Err(anyhow!("refused")),
    }
}
