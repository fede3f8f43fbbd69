//! The program: reads a case file from standard input and prints what it holds, or its first fault.
#![tactic(auto)]

use anyhow::anyhow;
use casefile::{LIMIT, check_text};
use std::io::{Read, Write};

// One byte more than a text may have is enough to know that it is too long.
const ENOUGH: u64 = LIMIT as u64 + 1;

fn main(rt: HostRuntime) -> anyhow::Result<()> {
    let mut text = Vec::new(rt.alloc());
    rt.stdin().take(ENOUGH).read_to_end(&mut text)?;
    match check_text(text.as_slice()) {
        Ok(held) => {
            rt.stdout().write_all(&held.printed())?;
            Ok(())
        }
        Err(refusal) => {
            rt.stdout().write_all(&refusal.printed())?;
            Err(anyhow!("the case file is refused"))
        }
    }
}
