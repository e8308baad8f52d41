//! Sets of addresses.
use al_core::{Addr, Obj};
use al_sets::AddrSet;
use std::test::Fail;

#[test]
fn addresses_at_the_ends_of_blocks(rt: HostRuntime) -> Result<(), Fail> {
    let objects = [
        Obj::Global(511),
        Obj::Serial(512),
        Obj::Iter(3, 1 << 40, u32::MAX),
    ];
    let mut set = AddrSet::new(rt.alloc());
    for obj in objects {
        for w in [0, 511, 512, u32::MAX] {
            assert!(rt; !set.has(&Addr::Word(obj, w)));
            set.insert(Addr::Word(obj, w))?;
            assert!(rt; set.has(&Addr::Word(obj, w)));
        }
        assert!(rt; !set.has(&Addr::Word(obj, 1)));
        assert!(rt; !set.has(&Addr::Word(obj, 513)));
        assert!(rt; !set.has(&Addr::Head(obj)));
        set.insert(Addr::Head(obj))?;
        assert!(rt; set.has(&Addr::Head(obj)));
    }
    assert!(rt; !set.has(&Addr::Head(Obj::Global(0))));
    assert!(rt; !set.has(&Addr::Local(0)));
    set.insert(Addr::Local(512))?;
    assert!(rt; set.has(&Addr::Local(512)));
    assert!(rt; !set.has(&Addr::Local(0)));
    Ok(())
}
