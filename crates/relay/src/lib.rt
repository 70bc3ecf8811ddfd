// The relay: a packet sent on, with all that it does not know.
// Whoever reads what was sent on reads what the original says; a refusal leaves the output.
#![tactic(auto)]

ghost use Rattle.std.specs.Prelude.{◌+◌, ◌≤◌, length};
ghost use Rattle.base.specs.Putting.{Room, Wrote};
ghost use Rattle.packet.specs.code.Headers.{item_by};
ghost use Rattle.packet.specs.Encode.{item_bytes, canonical};
ghost use Rattle.relay.specs.Forwards.{Forwards};
ghost use Rattle.packet.specs.Structure.{ItemsFrom};
ghost use Rattle.relay.specs.code.Sends.{items_for, LongerBy, Sendable, Sends};

use packet::Header;
use refusal::{Reason, Refusal, refused};
use tagset::TagSet;
use writer::Written;

// An item, its value as it stands in the packet, and the place after it.
fn put_item(out: &mut [u8], at: usize, packet: &[u8], item: Header) -> usize
    requires { (item.place + item.size ≤ length packet.now) × Room out.old at (item_bytes (item_by packet.now item).piece) }
    ensures { Wrote out.old at (item_bytes (item_by packet.now item).piece) result out.new }
{
    let size = item.size;
    let from = item.place;
    let end = from + size;
    let after = at + ber::put_tag(out, at, item.tag);
    let place = after + ber::put_length(out, after, size as u64);
    spelling::put_text(out, place, &packet[from..end]);
    place + size
}

// All items, one after another, and the place after them.
fn put_items(out: &mut [u8], start: usize, packet: &[u8], from: usize) -> usize
    requires { ItemsFrom packet.now from × Room out.old start (items_for packet.now) }
    ensures { Wrote out.old start (items_for packet.now) result out.new }
{
    let mut at = start;
    let mut here = from;
    while let Ok(item) = packet::item_at(packet, here) {
        at = put_item(out, at, packet, item);
        here = item.place + item.size;
    }
    at
}

// The packet anew: its key, the length and the items in their shortest forms, and the checksum of all before its value.
fn put_anew(out: &mut [u8], size: usize, items: usize, packet: &[u8], from: usize)
    requires { Sendable packet.now from size items (length out.old) }
    ensures { Wrote out.old 0 (canonical packet.now) size out.new }
{
    spelling::put_text(out, 0, &packet[..16]);
    let start = 16 + ber::put_length(out, 16, items as u64);
    put_items(out, start, packet, from);
    let end = size - 2;
    let sum = u64::from(checksum::checksum(&out[..end]));
    number::put(&mut out[end..size], sum);
}

// An accepted packet, if there is room for what is sent on. Where that has as many bytes, every form was the shortest already,
// and it is the packet itself.
fn send(packet: &[u8], from: usize, longer: usize, out: &mut [u8]) -> Result<Written, Refusal>
    requires { LongerBy packet.now from longer }
    ensures { Sends (canonical packet.now) out.old result out.new }
{
    let items = packet.len() - from - longer;
    let size = 16 + ber::length_size(items as u64) + items;
    if out.len() < size {
        return refused(Reason::OutputTooShort, 0, 0);
    }
    if size == packet.len() {
        spelling::put_text(out, 0, packet);
    } else {
        put_anew(out, size, items, packet, from);
    }
    Ok(Written { size })
}

// Sends a packet on, in its shortest form. A refusal leaves the output as it was.
pub fn forward(known: TagSet, packet: &[u8], out: &mut [u8]) -> Result<Written, Refusal>
    ensures { Forwards known packet.now out.old result out.new }
{
    let accepted = packet::check(packet, known)?;
    send(packet, accepted.from, accepted.longer, out)
}
