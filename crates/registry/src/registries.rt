// Each registry as a type, with its number, its level and its names as constants of its own.
ghost use Rattle.outcome.specs.Call.{Gives};
ghost use Rattle.outcome.specs.Told.{told};
ghost use Rattle.registry.specs.Names.{name_of};
ghost use Rattle.registry.specs.NameCall.{named};
ghost use Rattle.registry.specs.declared.Registry.{Registry};
ghost use Rattle.registry.specs.declared.Registry.TheVariants.{
  Neighbor as neighbor,
  Prefix as prefix,
  RouterCapability as router_capability,
  Binding as binding,
  Srv6Sid as srv6_sid,
  Unregistered as unregistered,
};

use crate::Registry;
use crate::lookup::find;
use octets::copy::copy_to_front;
use outcome::{Done, Outcome, Refusal};

// What a registry has of its own, as a type.
pub trait RegistryType {
    // It as a value.
    const REGISTRY: Registry;

    ghost REGISTRY: { Registry };

    // Its number.
    const NUMBER: u64;

    // Its level: whether it is nested.
    const NESTED: bool;

    // Its names, each behind its type.
    const NAMES: &'static [(u64, &'static str)];

    // Writes the name of type `t` to the front of `out`, or refuses where it does not fit.
    final fn name(t: u64, out: &mut [u8]) -> Outcome
        ensures { Gives (named (name_of REGISTRY t) out.old) (told result) out.new }
    {
        let name = find(Self::REGISTRY.names(), t).as_bytes();
        if out.len() < name.len() {
            return Err(Refusal::NameTooLong);
        }
        copy_to_front(name, out);
        Ok(Done {
            covered: 0,
            written: name.len(),
            needed: 0,
        })
    }
}

// IANA, IS-IS Sub-TLVs for TLVs Advertising Neighbor Information.
#[derive(Clone, Copy)]
pub struct Neighbor;

impl RegistryType for Neighbor {
    const REGISTRY: Registry = Registry::Neighbor;

    ghost REGISTRY = { neighbor };

    const NUMBER: u64 = 0;

    const NESTED: bool = false;

    const NAMES: &'static [(u64, &'static str)] = &[
        (3, "Administrative group (color)"),
        (4, "Link Local/Remote Identifiers"),
        (6, "IPv4 interface address"),
        (8, "IPv4 neighbor address"),
        (9, "Maximum link bandwidth"),
        (10, "Maximum reservable link bandwidth"),
        (11, "Unreserved bandwidth"),
        (12, "IPv6 Interface Address"),
        (13, "IPv6 Neighbor Address"),
        (14, "Extended Administrative Group"),
        (15, "Link MSD"),
        (16, "Application-Specific Link Attributes"),
        (17, "Generic Metric"),
        (18, "TE Default metric"),
        (19, "Link-attributes"),
        (20, "Link Protection Type"),
        (21, "Interface Switching Capability Descriptor"),
        (22, "Bandwidth Constraints"),
        (23, "Unconstrained TE LSP Count"),
        (24, "Remote AS Number"),
        (25, "IPv4 Remote ASBR Identifier"),
        (26, "IPv6 Remote ASBR Identifier"),
        (27, "Interface Adjustment Capability Descriptor (IACD)"),
        (28, "MTU"),
        (29, "SPB-Metric"),
        (30, "SPB-A-OALG"),
        (31, "Adjacency Segment Identifier"),
        (32, "LAN Adjacency Segment Identifier"),
        (33, "Unidirectional Link Delay"),
        (34, "Min/Max Unidirectional Link Delay"),
        (35, "Unidirectional Delay Variation"),
        (36, "Unidirectional Link Loss"),
        (37, "Unidirectional Residual Bandwidth"),
        (38, "Unidirectional Available Bandwidth"),
        (39, "Unidirectional Utilized Bandwidth"),
        (40, "RTM Capability"),
        (41, "L2 Bundle Member Adj-SID"),
        (42, "L2 Bundle Member LAN Adj-SID"),
        (43, "SRv6 End.X SID"),
        (44, "SRv6 LAN End.X SID"),
        (45, "IPv6 Local ASBR Identifier"),
        (161, "Flood Reflector Adjacency"),
    ];
}

// IANA, IS-IS Sub-TLVs for TLVs Advertising Prefix Reachability.
#[derive(Clone, Copy)]
pub struct Prefix;

impl RegistryType for Prefix {
    const REGISTRY: Registry = Registry::Prefix;

    ghost REGISTRY = { prefix };

    const NUMBER: u64 = 1;

    const NESTED: bool = false;

    const NAMES: &'static [(u64, &'static str)] = &[
        (1, "32-bit Administrative Tag"),
        (2, "64-bit Administrative Tag"),
        (3, "Prefix Segment Identifier"),
        (4, "Prefix Attribute Flags"),
        (5, "SRv6 End SID"),
        (6, "Flexible Algorithm Prefix Metric (FAPM)"),
        (11, "IPv4 Source Router ID"),
        (12, "IPv6 Source Router ID"),
        (32, "BIER Info"),
    ];
}

// IANA, IS-IS Sub-TLVs for IS-IS Router CAPABILITY TLV.
#[derive(Clone, Copy)]
pub struct RouterCapability;

impl RegistryType for RouterCapability {
    const REGISTRY: Registry = Registry::RouterCapability;

    ghost REGISTRY = { router_capability };

    const NUMBER: u64 = 2;

    const NESTED: bool = false;

    const NAMES: &'static [(u64, &'static str)] = &[
        (1, "TE Node Capability Descriptor"),
        (2, "Segment Routing Capability"),
        (3, "TE-MESH-GROUP TLV (IPv4)"),
        (4, "TE-MESH-GROUP TLV (IPv6)"),
        (5, "PCED"),
        (6, "NICKNAME"),
        (7, "TREES"),
        (8, "TREE-RT-IDs"),
        (9, "TREE-USE-IDs"),
        (10, "INT-VLAN"),
        (11, "IPv4 TE Router ID"),
        (12, "IPv6 TE Router ID"),
        (13, "TRILL-VER"),
        (14, "VLAN-GROUP"),
        (15, "INT-LABEL"),
        (16, "RBCHANNELS"),
        (17, "AFFINITY"),
        (18, "LABEL-GROUP"),
        (19, "Segment Routing Algorithm"),
        (20, "S-BFD Discriminators"),
        (21, "Node-Admin-Tag"),
        (22, "Segment Routing Local Block (SRLB)"),
        (23, "Node MSD"),
        (
            24,
            "Segment Routing Mapping Server Preference (SRMS Preference)",
        ),
        (25, "SRv6 Capabilities"),
        (26, "Flexible Algorithm Definition (FAD)"),
        (27, "IS-IS Area Leader"),
        (28, "IS-IS Dynamic Flooding"),
        (29, "IP Algorithm"),
        (30, "MP-TLV Support for TLVs with Implicit Support"),
        (161, "Flood Reflection Discovery"),
    ];
}

// IANA, IS-IS Sub-TLVs for Segment Identifier/Label Binding TLVs.
#[derive(Clone, Copy)]
pub struct Binding;

impl RegistryType for Binding {
    const REGISTRY: Registry = Registry::Binding;

    ghost REGISTRY = { binding };

    const NUMBER: u64 = 3;

    const NESTED: bool = false;

    const NAMES: &'static [(u64, &'static str)] = &[
        (1, "SID/Label"),
        (3, "Prefix Segment Identifier"),
    ];
}

// IANA, IS-IS Sub-Sub-TLVs for SRv6 SID Sub-TLVs.
#[derive(Clone, Copy)]
pub struct Srv6Sid;

impl RegistryType for Srv6Sid {
    const REGISTRY: Registry = Registry::Srv6Sid;

    ghost REGISTRY = { srv6_sid };

    const NUMBER: u64 = 4;

    const NESTED: bool = true;

    const NAMES: &'static [(u64, &'static str)] = &[(1, "SRv6 SID Structure")];
}

// Sub-sub-TLVs without a registry, those of SRv6 Capabilities (RFC 9352, section 2).
#[derive(Clone, Copy)]
pub struct Unregistered;

impl RegistryType for Unregistered {
    const REGISTRY: Registry = Registry::Unregistered;

    ghost REGISTRY = { unregistered };

    const NUMBER: u64 = 5;

    const NESTED: bool = true;

    const NAMES: &'static [(u64, &'static str)] = &[];
}
