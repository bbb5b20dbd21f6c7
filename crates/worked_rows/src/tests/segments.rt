use rbf_map::RbfMap;
use rbf_segs::Segs;
use std::test::Fail;

#[test]
fn runs_are_joined_and_cut(rt: HostRuntime) {
    let mut segs = Segs::empty();
    assert_eq!(rt; segs.append(3, 2), Ok(()));
    assert_eq!(rt; segs.append(5, 65533), Ok(()));
    assert_eq!(rt; segs.append(65538, 1), Ok(()));
    assert_eq!(rt; segs.add_run(65539, 4), Ok(()));
    assert_eq!(rt; segs.runs(), 3);
    assert_eq!(rt; segs.run(0), (3, 65535));
    assert_eq!(rt; segs.sectors(), 65540);
    assert_eq!(rt; segs.last(), Some(65542));
    assert_eq!(rt; segs.lsn_of(65536), Some(65539));
    segs.cut(65536);
    assert_eq!(rt; segs.runs(), 2);
    assert_eq!(rt; segs.lsn_of(65536), None);
}

#[test]
fn clusters_are_taken_and_given_back(rt: HostRuntime) -> Result<(), Fail> {
    let bytes = [0xF0, 0x00].to_vec(rt.alloc())?;
    assert_eq!(rt; bytes.len(), 2);
    let mut map = RbfMap::new(16, 15, bytes);
    assert_eq!(rt; map.free_count(), 11);
    assert_eq!(rt; map.take_after(Some(9), 1), Some(10));
    assert_eq!(rt; map.take_after(Some(9), 1), Some(4));
    assert_eq!(rt; map.take_after(None, 1), Some(5));
    assert_eq!(rt; map.free_count(), 8);
    let mut bytes = [7; 256];
    map.sector(0, &mut bytes);
    assert_eq!(rt; bytes[0], 0xFC);
    assert_eq!(rt; bytes[1], 0x20);
    assert_eq!(rt; bytes[2], 0);
    Ok(())
}
