ghost use Rattle.std.specs.Prelude.{◌≡◌, ◌-◌, ◌^◌, ◌<◌, ◌≤◌, ◌↔◌, IsTrue, IfSome, IfNone, Some};
ghost use Rattle.hpx_value.specs.Ids.{Id, IsId, bare, bare_id, credit, same_object, upper_half};

use crate::exact::Exact;
use crate::items::Items;
use crate::memory::OutOfMemory;
use std::alloc::Global;
use std::marker::Model;

/// The weight of bit 32, where home + 1 begins.
const HOME_UNIT: u64 = 0x1_0000_0000;

/// The weight of bit 30, which is set where there is a credit.
const CREDIT_BIT: u64 = 0x4000_0000;

/// The weight of bit 24, where the log begins.
const LOG_UNIT: u64 = 0x100_0000;

/// Kinds are below this number.
const KINDS: u64 = 0x10_0000;

/// The global id of an object, in two halves.
///
/// Upper half: home + 1 in bits 32 to 63, bit 30 set where there is a credit, its log in bits 24 to 28, the kind in
/// bits 1 to 20, bit 0 set, all others clear. Lower half: the number drawn at birth.
#[derive(Clone, Copy, Debug, PartialEq, Eq)]
pub struct Gid {
    pub msb: u64,
    pub lsb: u64,
}

/// Ids, in order.
pub type Gids = Items<Gid>;

impl Model for Gid {
    ghost use Rattle.std.specs.Prelude.{◌≡◌};
    ghost use Rattle.hpx_value.specs.Ids.{Id, IsId, upper_half, id_in};

    ghost Value = { Id };

    ghost view = { λ g. id_in g.msb g.lsb };

    ghost invariant = { λ g. (upper_half (id_in g.msb g.lsb) ≡ g.msb) × IsId (id_in g.msb g.lsb) };

    ghost inverse = { λ id. record { msb = upper_half id; lsb = id.number } };

    ghost use Rattle.std.proofs.Common.{ap};

    ghost inverse_ok = { λ a h. ap (λ m. record { msb = m; lsb = a.lsb }) h.0 };
}

impl Gid {
    /// The id of an object, without credit.
    pub fn new(home: u32, kind: u32, number: u64) -> Gid
        requires home { home < 2 ^ 32 - 1 }
        requires kind { kind < 2 ^ 20 }
        requires some_kind { 1 ≤ kind }
        requires number { 1 ≤ number }
        ensures { result ≡ bare_id home kind number }
    {
        Gid {
            msb: (home as u64 + 1) * HOME_UNIT + kind as u64 * 2 + 1,
            lsb: number,
        }
    }

    /// The id that two halves are, if they are one. The halves of an id give back that id.
    #[tactic(auto, using(crate::proofs::Halves::shown_by))]
    pub fn read(msb: u64, lsb: u64) -> Option<Gid>
        ensures made { (id : Id) → IsId id → upper_half id ≡ msb → id.number ≡ lsb → result ≡ Some id }
        ensures some { IfSome result (λ id. (upper_half id ≡ msb) × (id.number ≡ lsb)) }
        ensures valid { IfSome result IsId }
        ensures none { IfNone result ((id : Id) → IsId id → upper_half id ≡ msb → id.number ≡ lsb → ⊥) }
    {
        let home = msb / HOME_UNIT;
        let kind = msb / 2 % KINDS;
        let log = msb / LOG_UNIT % 32;
        let credit = if msb / CREDIT_BIT % 2 == 1 {
            CREDIT_BIT + log * LOG_UNIT
        } else {
            0
        };
        if home == 0 || kind == 0 || lsb == 0 {
            return None;
        }
        if home * HOME_UNIT + credit + kind * 2 + 1 != msb {
            return None;
        }
        Some(Gid { msb, lsb })
    }

    /// The same id with a credit of `2^log`.
    pub fn with_log(self, log: u8) -> Gid
        requires { log ≤ 31 }
        ensures { result ≡ record self { log = Some log } }
    {
        let plain = self.bare();
        Gid {
            msb: plain.msb + CREDIT_BIT + log as u64 * LOG_UNIT,
            lsb: plain.lsb,
        }
    }

    /// The id without its credit, which names the object.
    pub fn bare(self) -> Gid
        ensures { result ≡ bare self }
    {
        match self.log() {
            Some(log) => Gid {
                msb: self.msb - CREDIT_BIT - log as u64 * LOG_UNIT,
                lsb: self.lsb,
            },
            None => self,
        }
    }

    /// The locality of birth.
    pub fn home(self) -> u32
        ensures { result ≡ self.home }
    {
        (self.msb / HOME_UNIT - 1) as u32
    }

    /// What sort of object it is.
    pub fn kind(self) -> u32
        ensures { result ≡ self.kind }
    {
        (self.msb / 2 % KINDS) as u32
    }

    /// The number drawn at birth.
    pub fn number(self) -> u64
        ensures { result ≡ self.number }
    {
        self.lsb
    }

    /// The log of the credit, if there is one.
    pub fn log(self) -> Option<u8>
        ensures { result ≡ self.log }
    {
        if self.msb / CREDIT_BIT % 2 == 1 {
            Some((self.msb / LOG_UNIT % 32) as u8)
        } else {
            None
        }
    }

    /// What the id is worth: `2^log`, or 0 without a credit.
    pub fn credit(self) -> u128
        ensures value { result ≡ credit self }
        ensures bound { result ≤ 2 ^ 31 }
    {
        let _upper = self.msb;
        match self.log() {
            Some(log) => 1u128 << log as u32,
            None => 0,
        }
    }

    /// Whether two ids name one object.
    pub fn names_same(self, other: Gid) -> bool
        ensures test { result ≡ same_object self other }
        ensures object { IsTrue result ↔ (bare self ≡ bare other) }
    {
        self.home() == other.home() && self.kind() == other.kind() && self.lsb == other.lsb
    }
}

impl Exact for Gid {
    fn duplicate(&self, _alloc: Global) -> Result<Gid, OutOfMemory> {
        Ok(*self)
    }

    fn same(&self, other: &Gid) -> bool {
        self.home() == other.home()
            && self.kind() == other.kind()
            && self.number() == other.number()
            && self.log() == other.log()
    }
}
