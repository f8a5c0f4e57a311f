// Registry 0: sub-TLVs of a neighbor (TLVs 22 and 222). `kind` is an octet of the packet: any may stand there.
#![tactic(auto)]

ghost use Rattle.std.specs.Prelude.{◌≡◌, ◌+◌, ◌≤◌, ◌<◌, ◌^◌, length};
ghost use Rattle.store.specs.Pen.{HasRoom, Writes};
ghost use Rattle.fields.specs.Stretches.{of};
ghost use Rattle.readings.specs.Reading.{by_row, Asks, Reads};
ghost use Rattle.readings.specs.Rows.{end_x_head, system_id};

use fields::array::{Numbers, array};
use fields::part::{flag, number, octets};
use fields::sid::sid;
use fields::stretch::Stretch;
use readings::{address, flag_and_number, octet_and_sid, one_number};
use store::layout::Layout;
use store::pen::Pen;
use tape::label::Label;
use tape::shape::Shape;

pub mod alone;

// Link local and remote identifiers (RFC 5307, section 1.1).
fn link_identifiers<L: Layout>(value: Stretch, pen: &mut Pen<'_, L>) -> Option<usize>
    requires { Asks L.SLIM (of (by_row 0 4) value) pen.old }
    ensures { Reads L.SLIM (of (by_row 0 4) value.entry) pen.old pen.new result }
{
    if value.octets.len() < 8 {
        return None;
    }
    number::<4, L>(value, Label::LocalIdentifier, 0, pen);
    number::<4, L>(value, Label::RemoteIdentifier, 4, pen);
    Some(8)
}

// Unreserved bandwidth (RFC 5305, section 3.6): 8 numbers from the first 32 octets.
fn unreserved_bandwidth<L: Layout>(value: Stretch, pen: &mut Pen<'_, L>) -> Option<usize>
    requires { Asks L.SLIM (of (by_row 0 11) value) pen.old }
    ensures { Reads L.SLIM (of (by_row 0 11) value.entry) pen.old pen.new result }
{
    if value.octets.len() < 32 {
        return None;
    }
    let element = Numbers::<4> {
        label: Label::BandwidthElement,
    };
    Some(array(value.first(32), Label::UnreservedBandwidth, element, pen))
}

// LAN-Adj-SID (RFC 8667, section 2.2.2): Flags | Weight | Neighbor System-ID | SID/Label/Index.
fn lan_adj_sid<L: Layout>(value: Stretch, pen: &mut Pen<'_, L>) -> Option<usize>
    requires { Asks L.SLIM (of (by_row 0 32) value) pen.old }
    ensures { Reads L.SLIM (of (by_row 0 32) value.entry) pen.old pen.new result }
{
    if value.octets.len() < 11 {
        return None;
    }
    number::<1, L>(value, Label::Flags, 0, pen);
    number::<1, L>(value, Label::Weight, 1, pen);
    octets(value, Label::NeighborSystemId, Shape::Bytes, 2, 6, pen);
    Some(sid(value, Label::Sid, 8, pen))
}

// Min/max link delay (RFC 8570, section 4.2): A | RESERVED | Min Delay | RESERVED | Max Delay.
fn min_max_delay<L: Layout>(value: Stretch, pen: &mut Pen<'_, L>) -> Option<usize>
    requires { Asks L.SLIM (of (by_row 0 34) value) pen.old }
    ensures { Reads L.SLIM (of (by_row 0 34) value.entry) pen.old pen.new result }
{
    if value.octets.len() < 8 {
        return None;
    }
    flag(value, Label::Anomalous, 0x80, pen);
    number::<3, L>(value, Label::MinDelay, 1, pen);
    number::<3, L>(value, Label::MaxDelay, 5, pen);
    Some(8)
}

// What stands before the SID of an SRv6 End.X SID (RFC 9352, section 8.1): Flags | Algorithm | Weight | Endpoint Behavior.
pub fn end_x_head<L: Layout>(value: Stretch, at: usize, pen: &mut Pen<'_, L>)
    requires { (at + 5 ≤ length value.octets.now) × HasRoom L.SLIM pen.old 4 }
    ensures { Writes L.SLIM (of (end_x_head at) value.entry) pen.old pen.new }
{
    number::<1, L>(value, Label::Flags, at, pen);
    number::<1, L>(value, Label::Algorithm, at + 1, pen);
    number::<1, L>(value, Label::Weight, at + 2, pen);
    number::<2, L>(value, Label::EndpointBehavior, at + 3, pen);
}

// Lays the neighbor's system id, which stands first on a LAN (RFC 9352, section 8.2), where it has octets. No `Option`: its width, 0 or
// 6, is added to the places behind it.
pub fn system_id<L: Layout>(value: Stretch, width: usize, pen: &mut Pen<'_, L>)
    requires { (value.base.0 + width < 2 ^ 32) × HasRoom L.SLIM pen.old 1 }
    ensures { Writes L.SLIM (of (system_id width) value.entry) pen.old pen.new }
{
    if 0 < width {
        octets(value, Label::NeighborSystemId, Shape::Bytes, 0, width, pen);
    }
}

// A value by its type; the types 43 and 44 hold an area of their own.
pub fn neighbor<L: Layout>(value: Stretch, kind: u8, pen: &mut Pen<'_, L>) -> Option<usize>
    requires { (kind ≡ 43 → ⊥) × (kind ≡ 44 → ⊥) × Asks L.SLIM (of (by_row 0 kind) value) pen.old }
    ensures { Reads L.SLIM (of (by_row 0 kind) value.entry) pen.old pen.new result }
{
    match kind {
        3 => one_number::<4, L>(value, Label::AdminGroup, 0, pen),
        4 => link_identifiers(value, pen),
        6 => address(value, Label::Ipv4InterfaceAddress, Shape::Ipv4, 4, pen),
        8 => address(value, Label::Ipv4NeighborAddress, Shape::Ipv4, 4, pen),
        9 => one_number::<4, L>(value, Label::MaxBandwidth, 0, pen),
        10 => one_number::<4, L>(value, Label::MaxReservableBandwidth, 0, pen),
        11 => unreserved_bandwidth(value, pen),
        12 => address(value, Label::Ipv6InterfaceAddress, Shape::Ipv6, 16, pen),
        13 => address(value, Label::Ipv6NeighborAddress, Shape::Ipv6, 16, pen),
        18 => one_number::<3, L>(value, Label::TeDefaultMetric, 0, pen),
        31 => octet_and_sid(value, Label::Weight, pen),
        32 => lan_adj_sid(value, pen),
        33 => flag_and_number(value, Label::Delay, pen),
        34 => min_max_delay(value, pen),
        35 => one_number::<3, L>(value, Label::DelayVariation, 1, pen),
        36 => flag_and_number(value, Label::LinkLoss, pen),
        37..=39 => one_number::<4, L>(value, Label::Bandwidth, 0, pen),
        _ => None,
    }
}
