//! A cluster, and what it says of its partitions.

ghost use Rattle.std.specs.Prelude.{◌≡◌, ◌+◌, ◌^◌, ◌<◌, ◌≤◌, ◌==◌, None, Ok, Err, IfErr, IfOk, position, slice_index};
ghost use Rattle.sw_hashpath.specs.Place.{IsPlace};
ghost use Rattle.sw_words.specs.Memory.{UnlessMemory};
ghost use Rattle.sw_types.specs.Name.{NameModel, path_of};
ghost use Rattle.sw_ring.specs.Cluster.{IsCluster, KeepsRules, column_of, handoffs_of, place_of_name, place_of_path, ring_of};
ghost use Rattle.sw_ring.specs.Members.{RingMembers};
ghost use Rattle.sw_ring.specs.Reading.{members_seen, policy_numbers};
ghost use Rattle.sw_ring.specs.Ring.{is_among, ring_fault};

use crate::columns::{absent, device_at, index_in};
use crate::device::Device;
use crate::fault::RingFault;
use crate::reading::{Members, read_members};
use crate::rules::checked_policy;
use crate::sorting::sort_by_id;
use std::alloc::Global;
use std::marker::Model;
use sw_hashpath::{Place, place_name, place_path};
use sw_types::{Name, NoMemory, Policy};

/// What a ring's text says, where it breaks no rule.
#[derive(Debug, Drop)]
pub struct Cluster {
    part_power: u32,
    prefix: String,
    suffix: String,
    policy: Policy,
    devices: Vec<Device>,
    rows: Vec<Vec<u16>>,
}

impl Model for Cluster {
    ghost use Rattle.sw_ring.specs.Cluster.{ClusterModel, KeepsRules};

    ghost Value = { ClusterModel };

    ghost use Rattle.sw_ring.specs.Inside.{cluster_seen};

    ghost view = { cluster_seen };

    ghost invariant = { λ cluster. KeepsRules (cluster_seen cluster) };
}

impl Cluster {
    /// There are at most two to this power of partitions.
    pub const GREATEST_PART_POWER: u32 = 16;

    /// The greatest number of devices.
    pub const GREATEST_DEVICES: usize = 64;

    /// The cluster that a ring's text describes, or the first rule that the text breaks.
    pub fn read(alloc: Global, text: &[u8]) -> Result<Cluster, RingFault>
        ensures read { IfOk result (λ cluster. (members : RingMembers) × (ring_of text.now ≡ Ok members) × IsCluster members cluster) }
        ensures rules { IfOk result KeepsRules }
        ensures fault { IfErr result (λ fault. UnlessMemory RingFault.NoMemory fault (ring_of text.now ≡ Err fault)) }
    {
        let members = read_members(alloc, text)?;
        let policy = checked_policy(alloc, &members)?;
        Ok(Cluster::from_members(members, policy))
    }

    fn from_members(members: Members, policy: Policy) -> Cluster
        requires kept { ring_fault (members_seen members) ≡ None }
        requires policy { policy ≡ policy_numbers members.numbers }
        ensures { IsCluster (members_seen members) result }
    {
        let Members {
            part_power,
            prefix,
            suffix,
            numbers: _,
            mut devices,
            rows,
        } = members;
        sort_by_id(&mut devices);
        Cluster {
            part_power: part_power as u32,
            prefix,
            suffix,
            policy,
            devices,
            rows,
        }
    }

    /// The numbers of its code and its quorums.
    pub fn policy(&self) -> &Policy
        ensures { result.now ≡ self.now.policy }
    {
        &self.policy
    }

    /// The devices, in ascending order of their ids.
    pub fn devices(&self) -> &[Device]
        ensures listed { result.now ≡ self.now.devices }
        ensures rules { KeepsRules self.now }
    {
        &self.devices
    }

    /// There are 2^part_power partitions, at most 2^16.
    pub fn part_power(&self) -> u32
        ensures power { result ≡ self.now.part_power }
        ensures rules { KeepsRules self.now }
    {
        self.part_power
    }

    /// The device that keeps the fragments of this index of a partition.
    pub fn primary(&self, part: u32, index: u32) -> u16
        requires part { part < 2 ^ self.now.part_power }
        requires index { index < self.now.policy.k + self.now.policy.m }
        ensures { result ≡ slice_index (column_of self.now part) index }
    {
        device_at(&self.rows, part as usize, index as usize)
    }

    /// The index whose fragments of a partition the device keeps: none where it keeps none, or there is no such partition.
    pub fn index_of(&self, part: u32, device: u16) -> Option<u32>
        ensures index { part < 2 ^ self.now.part_power → result ≡ position (λ id. id == device) (column_of self.now part) }
        ensures no_part { 2 ^ self.now.part_power ≤ part → result ≡ None }
    {
        let index = index_in(&self.rows, part as usize, device)?;
        Some(index as u32)
    }

    /// Whether the device is a primary of a partition: it keeps the fragments of one of its indices.
    pub fn is_primary(&self, part: u32, device: u16) -> bool
        requires { part < 2 ^ self.now.part_power }
        ensures { result ≡ is_among (column_of self.now part) device }
    {
        self.index_of(part, device).is_some()
    }

    /// The devices that are no primaries of a partition, in ascending order.
    pub fn handoffs(&self, alloc: Global, part: u32) -> Result<Vec<u16>, NoMemory>
        requires { part < 2 ^ self.now.part_power }
        ensures { IfOk result (λ devices. devices.items ≡ handoffs_of self.now part) }
    {
        absent(alloc, &self.devices, &self.rows, part as usize)
    }

    /// The place of a name.
    pub fn place(&self, alloc: Global, name: &Name) -> Result<Place, NoMemory>
        ensures place { IfOk result (λ place. place ≡ place_of_name self.now name.now) }
        ensures right { IfOk result (λ place. IsPlace self.now.part_power place) }
        ensures below { IfOk result (λ place. place.part < 2 ^ self.now.part_power) }
    {
        let prefix = self.prefix.as_bytes();
        let suffix = self.suffix.as_bytes();
        place_name(alloc, name, prefix, suffix, self.part_power)
    }

    /// The place of the name whose path this is. It takes no memory.
    pub fn place_of_path(&self, path: &[u8]) -> Place
        ensures place { result ≡ place_of_path self.now path.now }
        ensures named { (name : NameModel) → path.now ≡ path_of name → result ≡ place_of_name self.now name }
        ensures right { IsPlace self.now.part_power result }
        ensures below { result.part < 2 ^ self.now.part_power }
    {
        let prefix = self.prefix.as_bytes();
        let suffix = self.suffix.as_bytes();
        place_path(path, prefix, suffix, self.part_power)
    }
}
