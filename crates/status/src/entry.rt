// A live place of a table, as the page shows it.
#[derive(Clone, Copy, Debug, PartialEq, Eq)]
pub struct Entry {
    pub place: usize,
    pub keyed: bool,
    pub endpoint: u32,
}
