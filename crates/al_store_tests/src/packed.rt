//! Values in 16 bytes.
use al_core::{Obj, Val};
use al_values::PackedValue;

#[test]
fn values_come_back(rt: HostRuntime) {
    let most = u32::MAX;
    let values = [
        Val::Int(0),
        Val::Int(-1),
        Val::Int(i64::MIN),
        Val::Int(i64::MAX),
        Val::Ptr(Obj::Global(0), 0),
        Val::Ptr(Obj::Global(most), most),
        Val::Ptr(Obj::Serial(0), 1),
        Val::Ptr(Obj::Serial(most), most),
        Val::Ptr(Obj::Iter(0, 0, 0), 0),
        Val::Ptr(Obj::Iter(1, 2, 3), 4),
        Val::Ptr(Obj::Iter(most, 1_073_741_823, most), most),
    ];
    for value in values {
        let packed = PackedValue::pack(value);
        assert_eq!(rt; packed.map(|v| v.unpack()), Some(value));
    }
}

fn number(value: Val) -> Option<i64> {
    PackedValue::pack(value)?.int()
}

fn pointer(obj: Obj, at: u32) -> Option<(Obj, u32)> {
    PackedValue::point(obj, at)?.pointer()
}

#[test]
fn parts_of_values(rt: HostRuntime) {
    let obj = Obj::Iter(1, 2, 3);
    assert_eq!(rt; PackedValue::zero().int(), Some(0));
    assert_eq!(rt; PackedValue::from_int(-7).int(), Some(-7));
    assert_eq!(rt; PackedValue::from_int(-7).pointer(), None);
    assert_eq!(rt; number(Val::Int(9)), Some(9));
    assert_eq!(rt; number(Val::Ptr(obj, 4)), None);
    assert_eq!(rt; pointer(obj, 4), Some((obj, 4)));
    assert_eq!(rt; pointer(Obj::Iter(0, 1_073_741_824, 0), 0), None);
}
