/// An entry of a map, borrowed.
#[derive(Clone, Copy)]
pub struct EntryRef<'a> {
    pub prefix: &'a [u8],
    pub key: &'a [u8],
    pub value: &'a [u8],
}
