// Splitting a packet from its EKT tag, read from the last octet backwards.
ghost use Rattle.std.specs.Prelude.{◌≡◌, ◌≤◌, length, unwrap_or, OnOk};
ghost use Rattle.ekt.specs.Splitting as Spec;

use octets::Refusal;

// The longest ciphertext.
const CIPHERTEXT_LIMIT: u16 = 251;

// The longest extension data.
const DATA_LIMIT: u16 = 1024;

// What stands behind the ciphertext: SPI, epoch, length, type.
const FULL_TRAILER: u16 = 7;

// What stands behind the extension's data: length, type.
const EXTENSION_TRAILER: u16 = 3;

// What the last octet says.
#[derive(Clone, Copy, Debug, PartialEq, Eq)]
enum Form {
    Short,
    Full,
    Extension,
    // Type 1, which RFC 8870 leaves out.
    Unavailable,
}

// A tag, with its bounds in the packet: the front is what stands before start, and the
// ciphertext or the extension's data goes from start to end.
#[derive(Clone, Copy, Debug, PartialEq, Eq)]
pub enum Tag {
    Short {
        start: usize,
    },
    Full {
        spi: u16,
        epoch: u16,
        start: usize,
        end: usize,
    },
    Extension {
        message_type: u8,
        start: usize,
        end: usize,
    },
}

// The form that a type octet stands for.
impl From<u8> for Form {
    ghost from_gives = { λ message_type form. form ≡ Spec.form_of message_type };

    #[tactic(auto, using(octets::proofs::RangeLaws::arms), unfolding(crate::specs::Splitting::form_of))]
    fn from(message_type: u8) -> Form {
        match message_type {
            0 => Form::Short,
            1 => Form::Unavailable,
            2 => Form::Full,
            3..=255 => Form::Extension,
        }
    }
}

// The length that stands before the type octet, if there is room for one.
#[tactic(auto, unfolding(crate::specs::Splitting::tag_length))]
fn tag_length(packet: &[u8]) -> Option<u16>
    ensures { unwrap_or result 0 ≡ Spec.tag_length packet.now }
{
    let at = packet.len().checked_sub(3)?;
    Some(octets::number16(packet, at))
}

// Where a tag starts whose length is that of 1 to most octets and its trailer, within the packet.
#[tactic(auto, unfolding(crate::specs::Splitting::length_fits, octets::specs::Range::within))]
fn tag_start(packet: &[u8], trailer: u16, most: u16) -> Result<usize, Refusal>
    ensures start { result ≡ Spec.tag_start packet.now trailer most }
    ensures trailer { OnOk result (trailer ≤ length packet.now) }
{
    let n = tag_length(packet).ok_or(Refusal::NoTag)? as usize;
    if (trailer as usize + 1 <= n) & (n <= trailer as usize + most as usize) & (n <= packet.len()) {
        Ok(packet.len() - n)
    } else {
        Err(Refusal::NoTag)
    }
}

#[tactic(auto, unfolding(crate::specs::Splitting::split_full))]
fn split_full(packet: &[u8]) -> Result<Tag, Refusal>
    ensures { Spec.answer_of result ≡ Spec.split_full packet.now }
{
    let start = tag_start(packet, FULL_TRAILER, CIPHERTEXT_LIMIT)?;
    let end = packet.len() - FULL_TRAILER as usize;
    Ok(Tag::Full {
        spi: octets::number16(packet, end),
        epoch: octets::number16(packet, end + 2),
        start,
        end,
    })
}

#[tactic(auto, unfolding(crate::specs::Splitting::split_extension))]
fn split_extension(packet: &[u8], message_type: u8) -> Result<Tag, Refusal>
    ensures { Spec.answer_of result ≡ Spec.split_extension packet.now message_type }
{
    let start = tag_start(packet, EXTENSION_TRAILER, DATA_LIMIT)?;
    let end = packet.len() - EXTENSION_TRAILER as usize;
    Ok(Tag::Extension {
        message_type,
        start,
        end,
    })
}

// The tag that ends a packet, or refusal 18.
#[tactic(auto, unfolding(crate::specs::Splitting::splitting))]
pub fn split(packet: &[u8]) -> Result<Tag, Refusal>
    ensures { Spec.answer_of result ≡ Spec.splitting packet.now }
{
    let message_type = *packet.last().ok_or(Refusal::NoTag)?;
    match Form::from(message_type) {
        Form::Short => Ok(Tag::Short {
            start: packet.len() - 1,
        }),
        Form::Full => split_full(packet),
        Form::Extension => split_extension(packet, message_type),
        Form::Unavailable => Err(Refusal::NoTag),
    }
}
