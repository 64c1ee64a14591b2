// What a source in memory gives at each call, and what a fuse over a TPM lets happen.
use board_core::{Failed, FuseState, FuseTpm, Source, Space, Tpm};
use board_mem::{FailAt, MemSource, MemTpm, Remains};
use std::test::Fail;

#[test]
fn a_source_gives_its_bytes_in_order(rt: HostRuntime) -> Result<(), Fail> {
    let fail = FailAt {
        call: 2,
        remains: Remains::New,
    };
    let mut source = MemSource::new(rt.alloc(), &[1, 2, 3, 4, 5], &[fail])?;
    let mut two = [0; 2];
    for (answer, front) in [
        (Ok(2), [1, 2]),
        (Err(Failed), [1, 2]),
        (Ok(2), [3, 4]),
        (Ok(1), [5, 4]),
        (Ok(0), [5, 4]),
    ] {
        assert_eq!(rt; source.take(&mut two), answer);
        assert_eq!(rt; two, front);
    }
    Ok(())
}

#[test]
fn a_fuse_stops_a_tpm(rt: HostRuntime) -> Result<(), Fail> {
    let alloc = rt.alloc();
    for (keep, left) in [(0, [1, 2]), (1, [8, 9])] {
        let mut fuse = FuseTpm::new(MemTpm::new(alloc, &[1, 2], &[], &[])?);
        fuse.arm(1, keep);
        assert!(rt; fuse.lock(Space::Kernel).is_ok());
        assert!(rt; fuse.write(Space::Firmware, &[8, 9]).is_err());
        assert_eq!(rt; fuse.state(), FuseState::Dead);
        let mut bytes = [0; 64];
        assert!(rt; fuse.read(Space::Firmware, &mut bytes).is_err());
        fuse.revive();
        assert_eq!(rt; fuse.read(Space::Firmware, &mut bytes), Ok(2));
        assert_eq!(rt; &bytes[..2], left.as_slice());
    }
    Ok(())
}
