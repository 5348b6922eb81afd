use crate::{FileDisk, HostFiles};
use reql_disk::{Disk, DiskFault, Files};
use std::fs;
use std::test::Fail;

#[test]
fn what_is_written_is_read_after_a_new_open(rt: HostRuntime) -> Result<(), Fail> {
    let name = "reql_file-disk.journal";
    let mut disk = FileDisk::open(&rt, ".", name)?;
    let wrote = (
        disk.write_at(0, b"journal"),
        disk.write_at(4, b"ney"),
        disk.sync(),
    );
    let second = FileDisk::open(&rt, ".", name).is_err();
    drop(disk);
    let mut disk = FileDisk::open(&rt, ".", name)?;
    let mut buf = [0; 3];
    let read = (disk.read(3, &mut buf), disk.read(5, &mut buf), disk.size());
    drop(disk);
    fs::remove_file(&rt, name)?;
    assert_eq!(rt; wrote, (Ok(()), Ok(()), Ok(())));
    assert!(rt; second);
    assert_eq!(rt; read, (Ok(()), Err(DiskFault::Failed), Ok(7)));
    Ok(())
}

#[test]
fn a_folder_makes_the_file_that_it_opens(rt: HostRuntime) -> Result<(), Fail> {
    let alloc = rt.alloc();
    let name = "reql_file-folder.journal";
    let folder = String::from_str(alloc, ".")?;
    let mut files = HostFiles::new(rt, folder);
    let size = match files.open(name) {
        Ok(mut disk) => disk.size(),
        Err(why) => Err(why),
    };
    let missing = files.open("no folder/no file").is_err();
    fs::remove_file(&rt, name)?;
    assert_eq!(rt; size, Ok(0));
    assert!(rt; missing);
    Ok(())
}
