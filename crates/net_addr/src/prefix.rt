ghost use Rattle.std.specs.Prelude.{◌≡◌, ◌-◌, ◌^◌, ◌<◌, ◌≤◌, ◌↔◌, IsTrue, IsNone, IfSome, SomeIff};
ghost use Rattle.net_addr.specs.Addresses.{block_at, ContainsAddress, Covers, IsBlock};
ghost use Rattle.net_addr.specs.Boundaries.{last_address};

use std::marker::Model;

/// An IPv4 prefix: a base address and how many of its first bits count (RFC 4632, section 3.1).
///
/// No bit of the base past the length is set. Prefixes are ordered by base, then by length.
#[derive(Clone, Copy, Debug, PartialEq, Eq, PartialOrd, Ord, Hash)]
pub struct Prefix {
    base: u32,
    len: u8,
}

impl Model for Prefix {
    ghost use Rattle.net_addr.specs.Addresses.{Block, IsBlock};

    ghost Value = { Block };

    ghost view = { λ p. record { base = p.base; len = p.len } };

    ghost invariant = { λ p. IsBlock (record { base = p.base; len = p.len }) };

    ghost inverse = { λ b. record { base = b.base; len = b.len } };
}

impl Prefix {
    /// The prefix with this base and length; None where the length is above 32, or a bit of the base past it is set.
    pub fn new(base: u32, len: u8) -> Option<Prefix>
        ensures { SomeIff result (IsBlock (block_at base len)) (block_at base len) }
    {
        if len > 32 || u64::from(base) % block_size(len) != 0 {
            return None;
        }
        Some(Prefix { base, len })
    }

    /// The prefix of this length that contains the address `a`; None where the length is above 32.
    pub fn around(a: u32, len: u8) -> Option<Prefix>
        ensures none { IsNone result ↔ (32 < len) }
        ensures block { IfSome result IsBlock }
        ensures len { IfSome result (λ p. p.len ≡ len) }
        ensures contains { IfSome result (λ p. ContainsAddress p a) }
    {
        if len > 32 {
            return None;
        }
        let size = block_size(len);
        let base = (u64::from(a) / size * size) as u32;
        Some(Prefix { base, len })
    }

    /// The address that the prefix begins with.
    pub fn base(self) -> u32
        ensures value { result ≡ self.base }
        ensures block { IsBlock self }
    {
        self.base
    }

    /// How many first bits the addresses of the prefix share, at most 32.
    pub fn len(self) -> u8
        ensures value { result ≡ self.len }
        ensures block { IsBlock self }
    {
        self.len
    }

    /// The last address of the prefix: all bits past its length are set.
    pub fn last(self) -> u32
        ensures { result ≡ last_address self }
    {
        (u64::from(self.base) + (block_size(self.len) - 1)) as u32
    }

    /// Whether the address `a` is one of the prefix's.
    pub fn contains(self, a: u32) -> bool
        ensures { IsTrue result ↔ ContainsAddress self a }
    {
        let past = 32 - u32::from(self.len);
        u64::from(a) >> past == u64::from(self.base) >> past
    }

    /// Whether each address of `other` is one of this prefix's.
    pub fn covers(self, other: Prefix) -> bool
        ensures { IsTrue result ↔ Covers self other }
    {
        self.len <= other.len && self.contains(other.base)
    }
}

/// How many addresses a prefix of this length has.
pub(crate) fn block_size(len: u8) -> u64
    requires { len ≤ 32 }
    ensures { result ≡ 2 ^ (32 - len) }
{
    1u64 << (32 - u32::from(len))
}
