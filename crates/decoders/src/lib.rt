// The decoders of all registries but the neighbor's: how a value is read, by type, in the order of docs/src. The types that hold
// an area of their own (SRv6 SIDs, SRv6 capabilities) have here only what stands before it. `kind` is an octet of the packet: any may stand there.
#![tactic(auto)]

pub mod binding;
pub mod prefix;
pub mod router_capability;
pub mod srv6_sid;
