/// A message: a tag, the record that it comes from, two numbers, and its bytes, which are `first`
/// and
/// then `second`.
#[derive(Clone, Copy, Debug)]
pub struct Msg<'m> {
    pub tag: u8,
    pub rec: u32,
    pub a: u32,
    pub b: u32,
    pub first: &'m [u8],
    pub second: &'m [u8],
}
