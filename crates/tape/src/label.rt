// The labels of document 01: 0 to 46 are the field numbers of docs/src, 47 to 56 are those that 01 adds.
ghost use Rattle.std.specs.Prelude.{◌≡◌};
ghost use Rattle.tape.specs.Code.{label_code};

// What a record is; its number is its place in this list, from 0 on.
#[derive(Clone, Copy, PartialEq, Eq)]
pub enum Label {
    Type,
    Length,
    Value,
    Raw,
    SubTlvs,
    AdminGroup,
    LocalIdentifier,
    RemoteIdentifier,
    Ipv4InterfaceAddress,
    Ipv4NeighborAddress,
    Ipv6InterfaceAddress,
    Ipv6NeighborAddress,
    MaxBandwidth,
    MaxReservableBandwidth,
    UnreservedBandwidth,
    TeDefaultMetric,
    Flags,
    Weight,
    Algorithm,
    Sid,
    NeighborSystemId,
    Anomalous,
    Delay,
    MinDelay,
    MaxDelay,
    DelayVariation,
    LinkLoss,
    Bandwidth,
    EndpointBehavior,
    Srv6Sid,
    LocatorBlockLength,
    LocatorNodeLength,
    FunctionLength,
    ArgumentLength,
    Tags,
    FlagX,
    FlagR,
    FlagN,
    Ipv4SourceRouterId,
    Ipv6SourceRouterId,
    Ranges,
    Algorithms,
    Msds,
    Preference,
    Srv6Flags,
    Ipv4TeRouterId,
    Ipv6TeRouterId,
    SubTlv,
    Range,
    RangeSize,
    RangeSid,
    Msd,
    MsdType,
    MsdValue,
    BandwidthElement,
    Tag,
    AlgorithmElement,
}

impl Label {
    // Its number.
    pub fn code(self) -> u8
        ensures { result ≡ label_code self }
    {
        self as u8
    }
}
