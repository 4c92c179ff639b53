// The values of Direct Measurement and Follow-Up Telemetry: `decode_value` and `encode_value` of src/tlv/typed/direct_measurement.rs and
// src/tlv/typed/follow_up_telemetry.rs.
#![tactic(auto)]

ghost use Rattle.std.specs.Prelude.{◌≡◌, ◌+◌, ◌≤◌, length};
ghost use Rattle.area_fields.specs.Fields.{counters_at, follow_up_at, counters_of, follow_up_of, counters_table, follow_up_table, wrote, wrote_fields};

use call_types::{CounterPoint, ReflectorRx, ReflectorTx, SenderTx};
use limits::Refusal;

// `FollowUpTelemetryTlv`: the reflector's sequence, its timestamp as it came, and the byte of its mode.
#[derive(Clone, Copy)]
pub struct FollowUpItem {
    pub sequence: u32,
    pub timestamp: u64,
    pub mode: u8,
}

// The three counters that stand at a place.
pub fn counters_at(bytes: &[u8], at: usize) -> CounterPoint
    requires { at + 12 ≤ length bytes.now }
    ensures { result ≡ counters_at bytes.now at }
{
    CounterPoint {
        sender: SenderTx(big_endian::u32_at(bytes, at)),
        received: ReflectorRx(big_endian::u32_at(bytes, at + 4)),
        transmitted: ReflectorTx(big_endian::u32_at(bytes, at + 8)),
    }
}

// The follow-up that stands at a place.
pub fn follow_up_at(bytes: &[u8], at: usize) -> FollowUpItem
    requires { at + 16 ≤ length bytes.now }
    ensures { result ≡ follow_up_at bytes.now at }
{
    FollowUpItem {
        sequence: big_endian::u32_at(bytes, at),
        timestamp: big_endian::u64_at(bytes, at + 4),
        mode: big_endian::u8_at(bytes, at + 12),
    }
}

// The value of an item of type 5; another length than 12 is refused.
pub fn read_counters(value: &[u8]) -> Result<CounterPoint, Refusal>
    ensures { result ≡ counters_of value.now }
{
    if value.len() == 12 {
        return Ok(counters_at(value, 0));
    }
    Err(Refusal::WrongLength)
}

// The value of an item of type 7; another length than 16 is refused.
pub fn read_follow_up(value: &[u8]) -> Result<FollowUpItem, Refusal>
    ensures { result ≡ follow_up_of value.now }
{
    if value.len() == 16 {
        return Ok(follow_up_at(value, 0));
    }
    Err(Refusal::WrongLength)
}

// The value of an item of type 5, at the start of the lent bytes; refused where they are too few.
pub fn write_counters(bytes: &mut [u8], point: CounterPoint) -> Result<(), Refusal>
    ensures { wrote result bytes.new ≡ wrote_fields 12 (counters_table point) bytes.old }
{
    if bytes.len() < 12 {
        return Err(Refusal::ShortRoom);
    }
    let sender = point.sender.0;
    let received = point.received.0;
    let transmitted = point.transmitted.0;
    big_endian::put_u32(bytes, 0, sender);
    big_endian::put_u32(bytes, 4, received);
    big_endian::put_u32(bytes, 8, transmitted);
    Ok(())
}

// The value of an item of type 7, at the start of the lent bytes; refused where they are too few.
pub fn write_follow_up(bytes: &mut [u8], item: FollowUpItem) -> Result<(), Refusal>
    ensures { wrote result bytes.new ≡ wrote_fields 16 (follow_up_table item) bytes.old }
{
    if bytes.len() < 16 {
        return Err(Refusal::ShortRoom);
    }
    big_endian::put_u32(bytes, 0, item.sequence);
    big_endian::put_u64(bytes, 4, item.timestamp);
    big_endian::put_u8(bytes, 12, item.mode);
    big_endian::put_u8(bytes, 13, 0);
    big_endian::put_u8(bytes, 14, 0);
    big_endian::put_u8(bytes, 15, 0);
    Ok(())
}
