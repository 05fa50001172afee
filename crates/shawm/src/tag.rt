// The EKT tag that ends a packet. Parts: 1 front, 2 ciphertext, 3 extension data. Numbers: 1 SPI, 2 epoch.
ghost use Rattle.std.specs.Prelude.{◌≡◌, length};
ghost use Rattle.octets.specs.Bounds.{part_in};
ghost use Rattle.ekt.specs.Splitting.{splitting, tag_of};
ghost use Rattle.shawm.specs.Tag as Spec;

use crate::refusal::refused;
use ekt::Tag;
use octets::{Bounds, NOWHERE};

fn tag_type(tag: Tag) -> u32
    ensures { result ≡ Spec.tag_type (tag_of tag) }
{
    match tag {
        Tag::Short { .. } => 0,
        Tag::Full { .. } => 2,
        Tag::Extension { message_type, .. } => u32::from(message_type),
    }
}

// The bounds of the part with this number, one of C's.
#[tactic(auto, unfolding(crate::specs::Tag::part_bounds))]
fn part_bounds(packet: &[u8], part: u32) -> Bounds
    ensures { result ≡ Spec.part_bounds (splitting packet.now) part }
{
    let answer = ekt::split(packet);
    match part {
        1 => ekt::front_bounds(answer),
        2 => ekt::ciphertext_bounds(answer),
        3 => ekt::data_bounds(answer),
        _ => NOWHERE,
    }
}

// The tag's type, or refusal 18.
#[unsafe(no_mangle)]
pub extern "C" fn shawm_tag(packet: &[u8]) -> u32
    ensures { result ≡ Spec.tag_type (splitting packet.now) }
{
    ekt::split(packet).map_or_else(refused, tag_type)
}

// The offset of the first octet of a part; 0 where there is no such part.
#[unsafe(no_mangle)]
pub extern "C" fn shawm_tag_start(packet: &[u8], part: u32) -> usize
    ensures { result ≡ (Spec.part_bounds (splitting packet.now) part).start }
{
    part_bounds(packet, part).start
}

// The number of octets of a part; 0 where there is no such part.
#[unsafe(no_mangle)]
pub extern "C" fn shawm_tag_length(packet: &[u8], part: u32) -> usize
    ensures { result ≡ length (part_in packet.now (Spec.part_bounds (splitting packet.now) part)) }
{
    octets::part_in(packet, part_bounds(packet, part)).len()
}

// The SPI or the epoch of a Full tag; 0 where there is none.
#[tactic(auto, unfolding(crate::specs::Tag::spi_or_epoch))]
#[unsafe(no_mangle)]
pub extern "C" fn shawm_tag_number(packet: &[u8], field: u32) -> u32
    ensures { result ≡ Spec.tag_number (splitting packet.now) field }
{
    match (ekt::split(packet), field) {
        (Ok(Tag::Full { spi, .. }), 1) => u32::from(spi),
        (Ok(Tag::Full { epoch, .. }), 2) => u32::from(epoch),
        _ => 0,
    }
}
