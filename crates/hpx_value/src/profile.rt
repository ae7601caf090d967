ghost use Rattle.std.specs.Prelude.{◌↔◌, IsTrue};
ghost use Rattle.hpx_value.specs.Profiles.{IsValid};

/// The settings that a world runs by.
#[derive(Clone, Copy, Debug, PartialEq, Eq)]
pub struct Profile {
    /// The log of a new object's credit, from 8 to 31.
    pub credit_log: u8,
    /// The greatest count of a record, from `2^credit_log` to `2^100`.
    pub credit_limit: u128,
    /// How many places a locality remembers, from 1 to 4096.
    pub cache: u32,
}

impl Profile {
    /// Whether each setting is in its range.
    pub fn is_valid(&self) -> bool
        ensures { IsTrue result ↔ IsValid self.now }
    {
        8 <= self.credit_log
            && self.credit_log <= 31
            && 1u128 << self.credit_log as u32 <= self.credit_limit
            && self.credit_limit <= 1u128 << 100u32
            && 1 <= self.cache
            && self.cache <= 4096
    }
}
