//! Files that cannot be read.

use super::FileSource;
use flow_edge::{ReadFault, Source};
use std::env;
use std::test::Fail;

#[test]
fn gives_no_bytes_of_what_is_no_file(rt: HostRuntime) -> Result<(), Fail> {
    let folder = env::temp_dir(&rt)?;
    let missing = folder.join(rt.alloc(), "no_such_folder/no_such_file")?;
    for name in [missing.as_str(), folder.as_str()] {
        let mut source = FileSource::new(&rt, name);
        let mut bytes = [0; 4];
        assert_eq!(rt; source.read(&mut bytes), Err(ReadFault));
        assert_eq!(rt; source.read(&mut bytes), Err(ReadFault));
        assert_eq!(rt; source.faults, 2, "of {name}");
    }
    Ok(())
}
