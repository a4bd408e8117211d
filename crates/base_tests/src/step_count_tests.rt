//! The form of a caller that counts nothing.
ghost use Rattle.std.specs.Prelude.{◌+◌, ◌≤◌, ◌↔◌, length, Contains, IsTrue};
ghost use Rattle.step_count.specs.Opens.{OpensFor};

use std::marker::Brand;
use std::sync::ledger::{Blank, Ledger};
use std::test::Fail;
use step_count::Steps;

/// Whether the byte is among them. It ticks once for each byte that it looks at.
fn has<L: Ledger>(bytes: &[u8], byte: u8, looks: &mut Steps<L>) -> bool
    ensures found { IsTrue result ↔ Contains bytes.now byte }
    ensures looks { looks.new ≤ looks.old + length bytes.now }
{
    for found in bytes {
        looks.tick();
        if *found == byte {
            return true;
        }
    }
    false
}

/// Whether the byte is among them, for a caller that does not ask for the count.
fn has_from<L: Ledger>(bytes: &[u8], byte: u8, blank: Blank) -> bool
    requires { OpensFor blank L.name L.parts }
    ensures { IsTrue result ↔ Contains bytes.now byte }
{
    let mut looks: Steps<L> = Steps::new(blank);
    has(bytes, byte, &mut looks)
}

#[test]
fn a_caller_that_counts_nothing(rt: HostRuntime) -> Result<(), Fail> {
    let second = has_from::<Brand>(&[1, 2, 3], 2, Blank::new(1));
    let none = has_from::<Brand>(&[1, 2, 3], 4, Blank::new(1));
    assert!(rt; second && !none);
    Ok(())
}
