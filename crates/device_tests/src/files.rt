// Streams over files, and devices over files that fail. What a device keeps in its file is tried by the program itself.
use board_core::{Disk, EnrollFault, Flash, Hook, HookRow, Sink, Source, Space, Tpm};
use board_file::{FileDisk, FileFlash, FileHook, FileTpm, Folder, StdSink, StdSource};
use std::fs;
use std::fs::File;
use std::test::Fail;

const STREAM_FILE: &str = "stream.bin";

#[test]
fn a_sink_and_a_source(rt: HostRuntime) -> Result<(), Fail> {
    let mut sink = StdSink::new(File::create(&rt, STREAM_FILE)?);
    assert!(rt; sink.put(b"ab").is_ok());
    assert!(rt; sink.put(b"").is_ok());
    assert!(rt; sink.put(b"c").is_ok());
    let mut source = StdSource::new(File::open(&rt, STREAM_FILE)?);
    let mut buf = [0; 2];
    assert_eq!(rt; source.take(&mut buf), Ok(2));
    assert_eq!(rt; buf, *b"ab");
    assert_eq!(rt; source.take(&mut buf), Ok(1));
    assert_eq!(rt; &buf[..1], b"c".as_slice());
    assert_eq!(rt; source.take(&mut buf), Ok(0));
    // One that is open for reading takes no bytes.
    let mut closed = StdSink::new(File::open(&rt, STREAM_FILE)?);
    assert!(rt; closed.put(b"d").is_err());
    // One that is open for writing gives none.
    let mut closed = StdSource::new(File::create(&rt, STREAM_FILE)?);
    assert!(rt; closed.take(&mut buf).is_err());
    fs::remove_file(&rt, STREAM_FILE)?;
    Ok(())
}

#[test]
fn a_flash_that_fails(rt: HostRuntime) -> Result<(), Fail> {
    // The file is open for reading alone, and has fewer bytes than the flash.
    fs::write(&rt, "short.bin", &[6; 4096][..])?;
    let mut flash = FileFlash::new(File::open(&rt, "short.bin")?, 8192);
    assert!(rt; flash.read(4095, &mut [0; 2]).is_err());
    assert!(rt; flash.program(0, &[7]).is_err());
    assert!(rt; flash.erase(0).is_err());
    assert!(rt; fs::read(&rt, "short.bin")?.as_slice() == [6; 4096].as_slice());
    fs::remove_file(&rt, "short.bin")?;
    Ok(())
}

#[test]
fn a_disk_that_fails(rt: HostRuntime) -> Result<(), Fail> {
    // The file is open for reading alone, and has fewer bytes than the disk.
    fs::write(&rt, "few.bin", &[6; 512][..])?;
    let mut disk = FileDisk::new(File::open(&rt, "few.bin")?, 1024);
    assert!(rt; disk.sectors() == 2 && disk.pending() == 0);
    assert!(rt; disk.read(0, &mut [0; 1024]).is_err());
    assert!(rt; disk.sectors() == 2 && disk.pending() == 0);
    assert!(rt; disk.write(0, &[7; 512]).is_err());
    assert!(rt; disk.sectors() == 2);
    let mut sector = [0; 512];
    assert!(rt; disk.read(0, &mut sector).is_ok());
    assert_eq!(rt; sector, [6; 512]);
    fs::remove_file(&rt, "few.bin")?;
    Ok(())
}

#[test]
fn a_folder_that_one_run_has(rt: HostRuntime) -> Result<(), Fail> {
    let folder = Folder::take(&rt).ok().ok_or("the folder is taken")?;
    assert!(rt; Folder::take(&rt).is_err());
    // Another program makes the file of a space longer than a space while it is open.
    fs::write(&rt, "tpm_kernel.bin", &[7; 64][..])?;
    let mut tpm = FileTpm::open(&folder).ok().ok_or("a TPM is opened")?;
    let mut buf = [0; 64];
    assert_eq!(rt; tpm.read(Space::Kernel, &mut buf), Ok(64));
    fs::write(&rt, "tpm_kernel.bin", &[7; 65][..])?;
    assert!(rt; tpm.read(Space::Kernel, &mut buf).is_err());
    fs::remove_file(&rt, "tpm_kernel.bin")?;
    // A row that no file can have.
    let mut hook = FileHook::open(&folder).ok().ok_or("a hook is opened")?;
    for (algorithm, answer) in [(18, Err(EnrollFault::Failed)), (17, Ok(()))] {
        let row = HookRow {
            algorithm,
            key: [1; 32],
            digest_len: 32,
            digest: [0; 64],
            signature: [2; 32],
        };
        assert_eq!(rt; hook.enroll(&row), answer);
        assert_eq!(rt; fs::read(&rt, "hook.toml").is_ok(), algorithm == 17);
    }
    fs::remove_file(&rt, "hook.toml")?;
    Ok(())
}
