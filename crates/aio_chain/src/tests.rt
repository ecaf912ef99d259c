//! Chains that are appended.

use crate::{Chain, Spare};
use std::alloc::Global;
use std::test::Fail;

// Puts these values after all others.
fn push_all(alloc: Global, chain: &mut Chain<u8>, values: &[u8]) -> Result<(), Fail> {
    for value in values {
        chain.push(Spare::make(alloc)?, *value);
    }
    Ok(())
}

// Takes all values, which are these.
fn pop_all(chain: &mut Chain<u8>, values: &[u8]) -> Result<(), Fail> {
    for value in values {
        match chain.pop() {
            Some((first, _spare)) => {
                if first != *value {
                    return Err(Fail::from("another value"));
                }
            }
            None => return Err(Fail::from("a value too few")),
        }
    }
    if chain.is_empty() {
        Ok(())
    } else {
        Err(Fail::from("a value too many"))
    }
}

#[test]
fn chains_appended(rt: HostRuntime) -> Result<(), Fail> {
    let mut all = Chain::new();
    let mut other = Chain::new();
    push_all(rt.alloc(), &mut other, &[5, 6, 7])?;
    all.append(&mut other);
    all.append(&mut other);
    pop_all(&mut all, &[5, 6, 7])?;
    push_all(rt.alloc(), &mut all, &[1, 2])?;
    push_all(rt.alloc(), &mut other, &[3, 4])?;
    all.append(&mut other);
    push_all(rt.alloc(), &mut other, &[8])?;
    all.append(&mut other);
    pop_all(&mut all, &[1, 2, 3, 4, 8])?;
    // what is left is let go
    push_all(rt.alloc(), &mut all, &[9, 9, 9])
}
