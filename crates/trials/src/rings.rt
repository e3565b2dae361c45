use ring::Ring;

#[test]
fn a_place_serves_again(rt: HostRuntime) {
    let mut list = [9, 9];
    {
        let mut ring = Ring::over(&mut list);
        assert!(rt; ring.put(1) && ring.put(2) && !ring.put(3));
        assert_eq!(rt; ring.take(), Some(1));
        assert!(rt; ring.put(3));
        assert_eq!(rt; ring.len(), 2);
        assert_eq!(rt; ring.take(), Some(2));
        assert_eq!(rt; ring.free(), 1);
    }
    assert!(rt; list[0] == 3 && list[1] == 0);
}

#[test]
fn no_places(rt: HostRuntime) {
    let mut list: [u32; 0] = [];
    let mut ring = Ring::over(&mut list);
    assert!(rt; !ring.put(1));
    assert_eq!(rt; ring.take(), None);
    assert!(rt; ring.len() == 0 && ring.free() == 0);
}
