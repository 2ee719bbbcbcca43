// Tags and their order.

// A tag: a name, as the number of its four bytes, and a signed number. Tags are ordered by name, then by number.
#[derive(Clone, Copy, PartialEq, Eq, PartialOrd, Ord)]
pub struct Tag {
    pub name: u32,
    pub number: i32,
}
