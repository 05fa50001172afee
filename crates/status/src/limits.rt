// The widths and limits of the status page.
ghost use Rattle.std.specs.Prelude.{◌≡◌, ◌≤◌};
ghost use Rattle.status.specs.Limits.{places, page_bits};
ghost use Rattle.status.specs.Bits.{octets_for};

// Places of a table.
pub const PLACES: usize = 32;

// Bits of the number of live associations.
pub const COUNT_BITS: usize = 6;

// Bits of a place.
pub const PLACE_BITS: usize = 5;

// Bits of a state.
pub const STATE_BITS: usize = 1;

// Bits of an endpoint.
pub const ENDPOINT_BITS: usize = 32;

// Bits of an entry.
pub const ENTRY_BITS: usize = PLACE_BITS + STATE_BITS + ENDPOINT_BITS;

// Numbers of a state's bits.
pub const STATES: u64 = 1 << STATE_BITS;

// Numbers of an endpoint's bits.
pub const ENDPOINTS: u64 = 1 << ENDPOINT_BITS;

// Bits of a page with so many entries.
pub(crate) fn page_bits(count: usize) -> usize
    requires { count ≤ places }
    ensures { result ≡ page_bits count }
{
    COUNT_BITS + count * ENTRY_BITS
}

// Octets for so many bits.
pub(crate) fn octets_for(bits: usize) -> usize
    requires { bits ≤ page_bits places }
    ensures { result ≡ octets_for bits }
{
    bits.div_ceil(8)
}
