// How far an entry's formula looks, and of how many entries it is spelled.

#[derive(Clone, Copy)]
pub struct Span {
    pub horizon: u32,
    pub size: u8,
}
