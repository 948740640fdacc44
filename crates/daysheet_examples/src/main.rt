//! The shipped examples: the report of each input is held to the one that lies beside it.
#![tactic(auto)]

use report::report;
use std::fs::{self, File};

const EXAMPLES: [&str; 3] = ["sample", "month", "refusals"];

fn main(rt: HostRuntime) -> anyhow::Result<()> {
    for name in EXAMPLES {
        if is_as_expected(&rt, name)? {
            println!(rt; "{name}.txt: its report is {name}.out")?;
        } else {
            println!(rt; "{name}.txt: its report is not {name}.out")?;
        }
    }
    Ok(())
}

// Whether the report of an example is the one that is expected.
fn is_as_expected(rt: &HostRuntime, name: &str) -> anyhow::Result<bool> {
    let heap = rt.alloc();
    let path = format!(in heap; "{name}.txt")?;
    let mut input = File::open(rt, path.as_str())?;
    let mut text = Vec::new(heap);
    report(heap, &mut input, &mut text)?;
    let path = format!(in heap; "{name}.out")?;
    let expected = fs::read(rt, path.as_str())?;
    Ok(text.as_slice() == expected.as_slice())
}
