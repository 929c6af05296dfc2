use feed_files::{FileRefusal, Files, store};
use program_host::{HostFiles, Progress};
use std::alloc::{AllocError, Global};
use std::fs::{self, File, OpenFile};
use std::io;
use std::test::Fail;

/// A new folder that no other process uses.
fn new_folder<R: std::rt::Files + AllocGlobal>(rt: &R) -> io::Result<String> {
    let own = fs::read_link(rt, "/proc/self")?;
    let mut name = String::from_str(rt.alloc(), "/tmp/copydesk_files_")?;
    name.push_str(own.as_str())?;
    fs::create_dir(rt, name.as_str())?;
    Ok(name)
}

fn path(alloc: Global, folder: &str, name: &str) -> Result<String, AllocError> {
    let mut path = String::from_str(alloc, folder)?;
    path.push_str("/")?;
    path.push_str(name)?;
    Ok(path)
}

/// Whether a file of a folder is read with these bytes.
fn reads<F: Files>(alloc: Global, files: &mut F, folder: &str, name: &str, want: &[u8]) -> bool {
    let Ok(path) = path(alloc, folder, name) else {
        return false;
    };
    match files.read(alloc, path.as_str()) {
        Ok(bytes) => bytes.as_slice() == want,
        Err(_) => false,
    }
}

/// Whether a file of a folder is read, of which the bytes do not matter.
fn is_read<F: Files>(alloc: Global, files: &mut F, folder: &str, name: &str) -> bool {
    let Ok(path) = path(alloc, folder, name) else {
        return false;
    };
    files.read(alloc, path.as_str()).is_ok()
}

/// Whether a file of a folder is refused so.
fn refuses<F: Files>(
    alloc: Global,
    files: &mut F,
    folder: &str,
    name: &str,
    want: FileRefusal,
) -> bool {
    let Ok(path) = path(alloc, folder, name) else {
        return false;
    };
    match files.read(alloc, path.as_str()) {
        Ok(_) => false,
        Err(why) => why == want,
    }
}

/// Whether these bytes are stored in a folder.
fn stores<F: Files>(alloc: Global, files: &mut F, folder: &str, name: &str, bytes: &[u8]) -> bool {
    match path(alloc, folder, name) {
        Ok(path) => store(alloc, files, path.as_str(), bytes).is_ok(),
        Err(_) => false,
    }
}

/// How a file of a folder is written.
fn written<F: Files>(
    alloc: Global,
    files: &mut F,
    folder: &str,
    name: &str,
    bytes: &[u8],
) -> Option<FileRefusal> {
    let Ok(path) = path(alloc, folder, name) else {
        return Some(FileRefusal::NoMemory);
    };
    files.write_new(path.as_str(), bytes).err()
}

/// How a file of a folder is renamed.
fn renamed<F: Files>(
    alloc: Global,
    files: &mut F,
    folder: &str,
    from: &str,
    to: &str,
) -> Option<FileRefusal> {
    let Ok(from) = path(alloc, folder, from) else {
        return Some(FileRefusal::NoMemory);
    };
    let Ok(to) = path(alloc, folder, to) else {
        return Some(FileRefusal::NoMemory);
    };
    files.rename(from.as_str(), to.as_str()).err()
}

/// How a name of a folder is held.
fn held<F: Files>(alloc: Global, files: &mut F, folder: &str, name: &str) -> Option<FileRefusal> {
    let Ok(path) = path(alloc, folder, name) else {
        return Some(FileRefusal::NoMemory);
    };
    files.hold(path.as_str()).err()
}

/// Makes a file of so many bytes.
fn make_file<R: std::rt::Files + AllocGlobal>(
    rt: &R,
    folder: &str,
    name: &str,
    size: u64,
) -> io::Result<()> {
    let path = path(rt.alloc(), folder, name)?;
    let file = File::create(rt, path.as_str())?;
    file.set_len(size)
}

/// What is stored is read, whole, also over a longer one that was left over.
fn keeps<F: Files>(alloc: Global, files: &mut F, folder: &str) -> bool {
    refuses(alloc, files, folder, "a", FileRefusal::Missing)
        && stores(alloc, files, folder, "a", b"the old bytes")
        && reads(alloc, files, folder, "a", b"the old bytes")
        && written(
            alloc,
            files,
            folder,
            "a.new",
            b"left over, and longer than all",
        )
        .is_none()
        && stores(alloc, files, folder, "a", b"new")
        && reads(alloc, files, folder, "a", b"new")
        && refuses(alloc, files, folder, "a.new", FileRefusal::Missing)
}

/// A place that is not there, and a file below a file, are missing.
fn misses<F: Files>(alloc: Global, files: &mut F, folder: &str) -> bool {
    written(alloc, files, folder, "none/a", b"") == Some(FileRefusal::Missing)
        && renamed(alloc, files, folder, "a.new", "a") == Some(FileRefusal::Missing)
        && refuses(alloc, files, folder, "a/b", FileRefusal::Missing)
}

/// A folder, and a name that no file can have, are failures of the device.
fn fails<F: Files>(alloc: Global, files: &mut F, folder: &str) -> bool {
    refuses(alloc, files, folder, ".", FileRefusal::Device)
        && refuses(alloc, files, folder, "a\0", FileRefusal::Device)
        && written(alloc, files, folder, ".", b"") == Some(FileRefusal::Device)
}

#[test]
fn files_of_the_machine(rt: HostRuntime) -> Result<(), Fail> {
    let folder = new_folder(&rt)?;
    let progress = Progress::new(&rt);
    let mut files = HostFiles::new(&rt, &progress);
    assert!(rt; keeps(rt.alloc(), &mut files, folder.as_str()));
    assert!(rt; misses(rt.alloc(), &mut files, folder.as_str()));
    assert!(rt; files.failures() == 0);
    assert!(rt; fails(rt.alloc(), &mut files, folder.as_str()));
    assert!(rt; files.failures() == 3);
    fs::remove_dir_all(&rt, folder.as_str())?;
    Ok(())
}

#[test]
fn sizes_of_files(rt: HostRuntime) -> Result<(), Fail> {
    let folder = new_folder(&rt)?;
    let progress = Progress::new(&rt);
    let mut files = HostFiles::new(&rt, &progress);
    make_file(&rt, folder.as_str(), "large", 67_108_865)?;
    make_file(&rt, folder.as_str(), "greatest", 67_108_864)?;
    assert!(rt;
        refuses(
            rt.alloc(),
            &mut files,
            folder.as_str(),
            "large",
            FileRefusal::Large
        )
    );
    assert!(rt; is_read(rt.alloc(), &mut files, folder.as_str(), "greatest"));
    assert!(rt; files.failures() == 0);
    fs::remove_dir_all(&rt, folder.as_str())?;
    Ok(())
}

#[test]
fn one_holds_a_name(rt: HostRuntime) -> Result<(), Fail> {
    let folder = new_folder(&rt)?;
    let progress = Progress::new(&rt);
    let mut files = HostFiles::new(&rt, &progress);
    let mut others = HostFiles::new(&rt, &progress);
    assert!(rt; held(rt.alloc(), &mut files, folder.as_str(), "a").is_none());
    assert!(rt; held(rt.alloc(), &mut others, folder.as_str(), "a") == Some(FileRefusal::Device));
    drop(files);
    assert!(rt; held(rt.alloc(), &mut others, folder.as_str(), "a").is_none());
    fs::remove_dir_all(&rt, folder.as_str())?;
    Ok(())
}
