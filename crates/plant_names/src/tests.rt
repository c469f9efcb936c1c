use super::*;
use std::test::Fail;

#[test]
fn texts_keep_their_bytes(rt: HostRuntime) -> Result<(), Fail> {
    let name = Text::copied(rt.alloc(), b"tank")?;
    assert!(rt; name.as_bytes() == b"tank".as_slice());
    let name = Text::new(b"feed".to_vec(rt.alloc())?);
    assert!(rt; name.as_bytes() == b"feed".as_slice());
    assert!(rt; name.into_bytes().as_slice() == b"feed".as_slice());
    let place = Place::new(b"unit[0]".to_vec(rt.alloc())?);
    assert!(rt; place.into_bytes().as_slice() == b"unit[0]".as_slice());
    Ok(())
}
