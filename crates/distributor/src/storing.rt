// Rows of the block lent to be written, and whole blocks.
ghost use Rattle.std.specs.Prelude.{◌≡◌, ◌<◌, ◌≤◌, length};
ghost use Rattle.rules.specs.Limits.{places, list_limit};
ghost use Rattle.rules.specs.Layout as Spec;
ghost use Rattle.rules.specs.Index as Index;
ghost use Rattle.rows.specs.ReadKeys.{keys_read};

use block::layout::{LIST, LIST_LIMIT, TUNNEL};
use block::{BLOCK, put_in, row_at, take_out};
use rows::layout::ROW;
use rows::{ReadKeys, key_row, open_row, put_padded};

// The row, and its entry in the index.
pub(crate) fn put_open(state: &mut [u8; BLOCK], place: usize, identifier: &[u8], endpoint: u32)
    requires { place < places }
    ensures { state.new ≡ Index.with_entry (Spec.with_row state.old place (Spec.open_row identifier.now endpoint)) endpoint place }
{
    put_open_row(state, place, identifier, endpoint);
    put_in(state, endpoint, place as u8);
}

fn put_open_row(state: &mut [u8; BLOCK], place: usize, identifier: &[u8], endpoint: u32)
    requires { place < places }
    ensures { state.new ≡ Spec.with_row state.old place (Spec.open_row identifier.now endpoint) }
{
    let start = place * ROW;
    let end = start + ROW;
    open_row(&mut state[start..end], identifier, endpoint);
}

pub(crate) fn put_keys(state: &mut [u8; BLOCK], place: usize, keys: ReadKeys<'_>)
    requires { place < places }
    ensures { state.new ≡ Spec.with_row state.old place (Spec.keyed_row (keys_read keys.entry) (Spec.row_of state.old place)) }
{
    let start = place * ROW;
    let end = start + ROW;
    key_row(&mut state[start..end], keys);
}

pub(crate) fn put_vacant(state: &mut [u8; BLOCK], place: usize)
    requires { place < places }
    ensures { state.new ≡ Index.without_entry (Spec.with_row state.old place Spec.vacant_row) (Spec.endpoint_of (Spec.row_of state.old place)) }
{
    let endpoint = rows::endpoint_of(row_at(state, place));
    put_vacant_row(state, place);
    take_out(state, endpoint);
}

fn put_vacant_row(state: &mut [u8; BLOCK], place: usize)
    requires { place < places }
    ensures { state.new ≡ Spec.with_row state.old place Spec.vacant_row }
{
    put_padded(state, place * ROW, ROW, b"");
}

// Tunnel down, table empty.
pub(crate) fn put_down(state: &mut [u8; BLOCK])
    ensures { state.new ≡ Spec.down_block }
{
    put_padded(state, 0, BLOCK, b"");
}

// Tunnel up with a profile list, table empty.
pub(crate) fn put_up(state: &mut [u8; BLOCK], list: &[u8])
    requires { length list.now ≤ list_limit }
    ensures { state.new ≡ Spec.up_block list.now }
{
    put_padded(state, 0, BLOCK, b"");
    octets::put_octet(state, TUNNEL, 1);
    octets::put_octet(state, LIST, list.len() as u8);
    put_padded(state, LIST + 1, LIST_LIMIT, list);
}
