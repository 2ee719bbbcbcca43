// An item that lookup finds.

// An item's data: its type's code, in a GTC file its id; its count, which in a GTC file is an array's elements, else bytes; and where the data
// stand.
#[derive(Clone, Copy)]
pub struct ItemData {
    pub code: u16,
    pub count: u32,
    pub start: usize,
    pub size: usize,
}
