//! Runs stored inputs of the book program and says of each whether the page agrees with the one stored beside it.

#![tactic(auto)]

use booking::page_for;
use std::fs;

/// The cases: each has an input and the page that is expected.
const CASES: [&str; 20] = [
    "001", "002", "003", "006", "009", "013", "014", "015", "018", "019", "029", "034", "041",
    "047", "057", "061", "067", "073", "076", "079",
];

/// Whether the page for a case's input is the one that is expected.
fn agrees(rt: &HostRuntime, name: &str) -> anyhow::Result<bool> {
    let heap = rt.alloc();
    let input = fs::read(rt, format!(in heap; "{name}.in")?.as_str())?;
    let expected = fs::read(rt, format!(in heap; "{name}.out")?.as_str())?;
    let page = page_for(heap, &input)?;
    Ok(page.as_bytes() == expected.as_slice())
}

fn main(rt: HostRuntime) -> anyhow::Result<()> {
    let mut right = 0u32;
    for name in CASES {
        if agrees(&rt, name)? {
            right = right.saturating_add(1);
            println!(rt; "{name} agrees")?;
        } else {
            println!(rt; "{name} differs")?;
        }
    }
    let all = CASES.len();
    println!(rt; "{right} of {all} agree")?;
    Ok(())
}
