// What there is for each of the key fields of MediaKeys. No Debug and no ==, as it may be keys: what is printed is told, and
// == ends at the first octet that differs.
#[derive(Clone, Copy)]
pub struct Keys<T> {
    pub mki: T,
    pub client_key: T,
    pub server_key: T,
    pub client_salt: T,
    pub server_salt: T,
}
