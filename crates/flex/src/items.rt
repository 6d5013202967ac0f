// The lists of a call: a number of each item in each of them. Crate `flex_checks` sees that they are of one length.
ghost use Rattle.std.specs.Prelude.{◌≡◌, length};

// A list for each number of an item. The codes are the C interface's: `has_maximum` is 1 where the item has a maximum,
// and `auto_start` and `auto_end` are 1 where its margin is auto; else they are 0.
#[derive(Clone, Copy)]
pub struct ItemLists<'a> {
    pub base: &'a [f32],
    pub minimum: &'a [f32],
    pub maximum: &'a [f32],
    pub has_maximum: &'a [u32],
    // Padding plus border.
    pub edges: &'a [f32],
    pub grow: &'a [f32],
    pub shrink: &'a [f32],
    pub start: &'a [f32],
    pub end: &'a [f32],
    pub auto_start: &'a [u32],
    pub auto_end: &'a [u32],
}

impl<'a> ItemLists<'a> {
    // How many items they have, where they are of one length.
    pub fn len(self) -> usize
        ensures { result ≡ length self.entry.base.now }
    {
        self.base.len()
    }
}
