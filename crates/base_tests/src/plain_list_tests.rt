use plain_list::ListOf;
use std::test::Fail;

#[test]
fn lists_give_what_they_were_made_of(rt: HostRuntime) -> Result<(), Fail> {
    let one = ListOf::new(b"one".to_vec(rt.alloc())?);
    assert!(rt; one.len() == 3 && one.as_slice() == b"one".as_slice());
    let mut bytes = one.into_vec();
    bytes.push(b'!')?;
    let list = ListOf::new(bytes);
    assert!(rt; list.as_slice() == b"one!".as_slice());
    Ok(())
}
