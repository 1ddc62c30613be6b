//! Storage policies.

ghost use Rattle.std.specs.Prelude.{◌≡◌, IfErr, IfOk, None};
ghost use Rattle.sw_types.specs.Policy.{policy_fault};

use std::marker::Model;
use thiserror::Error;

/// The first bound of a policy that is broken, with the number that breaks it.
#[derive(Clone, Copy, Debug, PartialEq, Eq, Error)]
pub enum PolicyFault {
    /// There is no data fragment.
    #[error("no data fragment")]
    K(u32),
    /// There is no parity fragment, or there are more than three for each data fragment.
    #[error("{0} parity fragments")]
    M(u32),
    /// There are more than 32 fragments in all.
    #[error("{0} fragments")]
    N(u64),
    /// The quorum of synced fragments is below the number of data fragments, or above that of all.
    #[error("a quorum of {0} synced fragments")]
    Q(u32),
    /// The quorum of commits is 0, or above that of synced fragments.
    #[error("a quorum of {0} commits")]
    C(u32),
    /// The segment has fewer bytes than there are data fragments, or more than 4,194,304.
    #[error("a segment of {0} bytes")]
    Segment(u32),
}

/// The numbers of an erasure code and its quorums: k data and m parity fragments, 1 ≤ k, 1 ≤ m ≤ 3k, k + m ≤ 32; a put is
/// synced with q fragments, k ≤ q ≤ k + m, and acknowledged with c commits, 1 ≤ c ≤ q; a segment has k to 4,194,304 bytes.
#[derive(Clone, Copy, Debug)]
pub struct Policy {
    k: u32,
    m: u32,
    q: u32,
    c: u32,
    segment: u32,
}

impl Model for Policy {
    ghost use Rattle.std.specs.Prelude.{◌≡◌, None};
    ghost use Rattle.sw_types.specs.Policy.{PolicyModel, policy_fault};

    ghost Value = { PolicyModel };

    ghost view = { λ p. record { k = p.k; m = p.m; q = p.q; c = p.c; segment = p.segment } };

    ghost invariant = { λ p. policy_fault (record { k = p.k; m = p.m; q = p.q; c = p.c; segment = p.segment }) ≡ None };

    ghost inverse = { λ p. record { k = p.k; m = p.m; q = p.q; c = p.c; segment = p.segment } };
}

impl Policy {
    /// The greatest number of fragments.
    pub const GREATEST_TOTAL: u32 = 32;

    /// The greatest number of bytes of a segment.
    pub const GREATEST_SEGMENT: u32 = 4_194_304;

    /// The policy of these numbers, or the first bound that they break. It takes no memory.
    pub fn make(k: u32, m: u32, q: u32, c: u32, segment: u32) -> Result<Policy, PolicyFault>
        ensures made { IfOk result (λ policy. policy ≡ record { k = k; m = m; q = q; c = c; segment = segment }) }
        ensures sound { IfOk result (λ policy. policy_fault policy ≡ None) }
        ensures fault { IfErr result (λ fault. policy_fault (record { k = k; m = m; q = q; c = c; segment = segment }) ≡ Some fault) }
    {
        let total = u64::from(k) + u64::from(m);
        if k == 0 {
            return Err(PolicyFault::K(k));
        }
        if m == 0 || u64::from(m) > 3 * u64::from(k) {
            return Err(PolicyFault::M(m));
        }
        if total > u64::from(Policy::GREATEST_TOTAL) {
            return Err(PolicyFault::N(total));
        }
        if q < k || u64::from(q) > total {
            return Err(PolicyFault::Q(q));
        }
        if c == 0 || c > q {
            return Err(PolicyFault::C(c));
        }
        if segment < k || segment > Policy::GREATEST_SEGMENT {
            return Err(PolicyFault::Segment(segment));
        }
        Ok(Policy {
            k,
            m,
            q,
            c,
            segment,
        })
    }

    /// How many data fragments there are.
    pub fn k(&self) -> u32
        ensures { result ≡ self.now.k }
    {
        self.k
    }

    /// How many parity fragments there are.
    pub fn m(&self) -> u32
        ensures { result ≡ self.now.m }
    {
        self.m
    }

    /// With how many synced fragments a put may be committed.
    pub fn q(&self) -> u32
        ensures { result ≡ self.now.q }
    {
        self.q
    }

    /// With how many commits a put is acknowledged.
    pub fn c(&self) -> u32
        ensures { result ≡ self.now.c }
    {
        self.c
    }

    /// The greatest number of bytes of a segment.
    pub fn segment(&self) -> u32
        ensures value { result ≡ self.now.segment }
        ensures sound { policy_fault self.now ≡ None }
    {
        self.segment
    }
}
