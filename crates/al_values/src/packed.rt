ghost use Rattle.std.specs.Prelude.{◌≡◌, IfSome, is_some, pos};
ghost use Rattle.al_core.specs.declared.values.Val.TheVariants as value;
ghost use Rattle.al_core.specs.Values as spec;
ghost use Rattle.al_values.specs.Packing.{fits, number_of, offset_of, pointer_of, with_offset};

use al_core::{Kind, Obj, Trap, Val};
use std::marker::Model;
use std::mem::size_of;

const KIND: u64 = 4_611_686_018_427_387_904;

const HALF: u64 = 4_294_967_296;

const ITERATIONS: u64 = 1_073_741_824;

/// A value in 16 bytes. A contract sees it as the value.
#[derive(Clone, Copy)]
pub struct PackedValue {
    hi: u64,
    lo: u64,
}

const _: () = prove!(size_of::<PackedValue>() == 16);

impl Model for PackedValue {
    ghost use Rattle.al_core.specs.declared.values.Val.{Val};
    ghost use Rattle.al_core.specs.contracts.values.Val as val;
    ghost use Rattle.al_values.specs.Packing.{val_of, hi_of, lo_of};
    ghost use Rattle.std.specs.Prelude.{◌≡◌};

    ghost Value = { Val };

    ghost coded = { val.the_row.coded };

    ghost view = { λ c. val_of c.hi c.lo };

    ghost invariant = { λ c. (hi_of (val_of c.hi c.lo) ≡ c.hi) × (lo_of (val_of c.hi c.lo) ≡ c.lo) };

    ghost inverse = { λ v. record { hi = hi_of v; lo = lo_of v } };

    ghost inverse_ok = { λ c h t. record { hi = h.0 t; lo = h.1 t } };
}

impl PackedValue {
    /// The value 0, which is also the null pointer.
    #[inline(always)]
    pub fn zero() -> PackedValue
        ensures { result ≡ value.Int (pos 0) }
    {
        PackedValue { hi: 0, lo: 0 }
    }

    /// A number.
    #[inline(always)]
    pub fn from_int(n: i64) -> PackedValue
        ensures { result ≡ value.Int n }
    {
        PackedValue {
            hi: 0,
            lo: n.cast_unsigned(),
        }
    }

    /// A value packed. There is none exactly where it points into an object of an iteration from 1,073,741,824 on, of
    /// which a loop has fewer.
    #[inline(always)]
    pub fn pack(v: Val) -> Option<PackedValue>
        ensures same { IfSome result (λ c. c ≡ v) }
        ensures whole { is_some result ≡ fits v }
    {
        match v {
            Val::Int(n) => Some(PackedValue::from_int(n)),
            Val::Ptr(obj, at) => PackedValue::point(obj, at),
        }
    }

    /// A pointer to a word of an object, packed. There is none exactly where `pack` gives none.
    #[inline(always)]
    pub fn point(obj: Obj, at: u32) -> Option<PackedValue>
        ensures same { IfSome result (λ c. c ≡ value.Ptr obj at) }
        ensures whole { is_some result ≡ fits (value.Ptr obj at) }
    {
        match obj {
            Obj::Global(k) => Some(PackedValue {
                hi: KIND,
                lo: u64::from(k) * HALF + u64::from(at),
            }),
            Obj::Serial(k) => Some(PackedValue {
                hi: 2 * KIND,
                lo: u64::from(k) * HALF + u64::from(at),
            }),
            Obj::Iter(e, j, k) => {
                if j < ITERATIONS {
                    Some(PackedValue {
                        hi: 3 * KIND + u64::from(e) * ITERATIONS + j,
                        lo: u64::from(k) * HALF + u64::from(at),
                    })
                } else {
                    None
                }
            }
        }
    }

    /// The value.
    #[inline(always)]
    pub fn unpack(self) -> Val
        ensures { result ≡ self }
    {
        let first = (self.lo / HALF) as u32;
        let offset = (self.lo % HALF) as u32;
        match self.hi / KIND {
            0 => Val::Int(self.lo.cast_signed()),
            1 => Val::Ptr(Obj::Global(first), offset),
            2 => Val::Ptr(Obj::Serial(first), offset),
            _ => {
                let execution = (self.hi / ITERATIONS % HALF) as u32;
                let iteration = self.hi % ITERATIONS;
                Val::Ptr(Obj::Iter(execution, iteration, first), offset)
            }
        }
    }

    /// The number, where the value is one.
    #[inline(always)]
    pub fn int(self) -> Option<i64>
        ensures { result ≡ number_of self }
    {
        if self.hi == 0 {
            Some(self.lo.cast_signed())
        } else {
            None
        }
    }

    /// The object and the offset in words, where the value is a pointer.
    #[inline(always)]
    pub fn pointer(self) -> Option<(Obj, u32)>
        ensures { result ≡ pointer_of self }
    {
        match self.unpack() {
            Val::Int(_) => None,
            Val::Ptr(obj, at) => Some((obj, at)),
        }
    }

    /// The offset in words, where the value is a pointer.
    #[inline(always)]
    pub fn offset(self) -> Option<u32>
        ensures { result ≡ offset_of self }
    {
        if self.hi == 0 {
            None
        } else {
            Some((self.lo % HALF) as u32)
        }
    }

    /// A pointer to another word of the same object, where the value is a pointer.
    #[inline(always)]
    pub fn with_offset(self, at: u32) -> Option<PackedValue>
        ensures { result ≡ with_offset self at }
    {
        if self.hi == 0 {
            None
        } else {
            Some(PackedValue {
                hi: self.hi,
                lo: self.lo / HALF * HALF + u64::from(at),
            })
        }
    }

    /// Whether two values are equal.
    #[inline(always)]
    pub fn is_same(self, other: PackedValue) -> bool
        ensures { result ≡ spec.same self other }
    {
        self.hi == other.hi && self.lo == other.lo
    }

    /// The value, where it may be read as one of the kind: a number, or a pointer or null. It traps `Kind` else.
    #[inline(always)]
    pub fn of_kind(self, want: Kind) -> Result<PackedValue, Trap>
        ensures { result ≡ spec.of_kind want self }
    {
        match (want, self.int()) {
            (Kind::Int, None) => Err(Trap::Kind),
            (Kind::Ptr, Some(n)) if n != 0 => Err(Trap::Kind),
            _ => Ok(self),
        }
    }
}
